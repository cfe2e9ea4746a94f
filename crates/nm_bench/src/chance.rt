//! Numbers that look random, the same for the same seed.

ghost use Rattle.std.specs.Prelude.{◌<◌, ◌≤◌};

/// A linear congruential generator of 64 bits, whose upper bits are used.
#[derive(Drop)]
pub(crate) struct Chance {
    state: u64,
}

impl Chance {
    /// The numbers of a seed.
    pub(crate) fn new(seed: u64) -> Self {
        Chance { state: seed }
    }

    /// The next number below this bound.
    pub(crate) fn below(&mut self, bound: u64) -> u64
        requires { 1 ≤ bound }
        ensures { result < bound }
    {
        self.state = self
            .state
            .wrapping_mul(6_364_136_223_846_793_005)
            .wrapping_add(1_442_695_040_888_963_407);
        (self.state >> 33) % bound
    }

    /// Whether something comes about that does so once in so many times.
    pub(crate) fn once_in(&mut self, times: u64) -> bool
        requires { 1 ≤ times }
    {
        self.below(times) == 0
    }
}
