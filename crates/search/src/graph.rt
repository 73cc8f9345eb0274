ghost use Rattle.std.specs.Prelude.{◌≡◌, ℕ, ◌<◌, true};
ghost use Rattle.members.specs.Groups.{inside};

use members::group::Group;

// A graph on the members, told by whom a member reaches in one step.
pub trait Graph {
    ghost steps: { Self → ℕ → ℕ → Type 0 };

    // Whom a member reaches in one step.
    fn reached(&self, from: u32) -> Group
        ensures sound { (n : ℕ) → inside result.bits n ≡ true → steps self.now from n }
        ensures complete { (n : ℕ) → from < 64 → n < 64 → steps self.now from n → inside result.bits n ≡ true };
}
