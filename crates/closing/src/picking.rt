ghost use Rattle.std.specs.Prelude.{◌≡◌};
ghost use Rattle.batch.specs.declared.form.Choice.{Choice as Chosen};

use batch::form::Choice;

// Routers of which one serves at a time.
pub trait Picks {
    // the choice that serves
    ghost picked: { Self → Chosen };

    // From here on the router of this choice serves.
    fn pick(&mut self, choice: Choice)
        ensures { picked self.new ≡ choice };
}
