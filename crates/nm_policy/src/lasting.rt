//! How long something has lasted, in periods.

ghost use Rattle.std.specs.Prelude.{◌≡◌};
ghost use Rattle.nm_policy.specs.Lasting.{has_lasted, lasted_after};

/// For how many periods something has lasted.
#[derive(Clone, Copy, Drop)]
pub struct Lasted {
    pub periods: u64,
}

impl Lasted {
    /// Not yet at all.
    pub fn new() -> Self
        ensures { result.periods ≡ 0 }
    {
        Lasted { periods: 0 }
    }

    /// One more poll was made; `ran_out`: a period was over then.
    pub fn pass_poll(&mut self, ran_out: bool)
        ensures { self.new.periods ≡ lasted_after self.old.periods ran_out }
    {
        if ran_out {
            self.periods = self.periods.saturating_add(1);
        }
    }

    /// Whether it has lasted for so many periods.
    pub fn is_past(&self, periods: u64) -> bool
        ensures { result ≡ has_lasted periods self.now.periods }
    {
        self.periods >= periods
    }
}
