// The lent plan sheet while a call uses it.
ghost use Rattle.std.specs.Prelude.{◌≡◌, replicate, pos};

// Holds the lent sheet; at its end every place is zero, on whatever way the call leaves.
pub struct PlanGuard<'a> {
    pub(crate) plan: &'a mut [i32; 256],
}

impl Drop for PlanGuard<'_> {
    fn drop(self)
        ensures { self.exit.0.now ≡ replicate 256 (pos 0) }
    {
        self.plan.fill(0);
        let PlanGuard { plan: _ } = self;
    }
}
