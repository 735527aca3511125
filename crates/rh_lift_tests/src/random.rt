//! Random numbers that are the same in every run.
ghost use Rattle.std.specs.Prelude.{◌<◌};

/// A linear congruential generator (D. E. Knuth, The Art of Computer Programming, volume 2, 1969).
#[derive(Drop)]
pub struct Random {
    state: u64,
}

impl Random {
    pub fn new(seed: u64) -> Self {
        Random { state: seed }
    }

    /// A number below the limit. The low digits of the state repeat soon, so they are dropped.
    pub fn below(&mut self, limit: u32) -> u32
        requires { 0 < limit }
        ensures { result < limit }
    {
        self.state = self
            .state
            .wrapping_mul(6_364_136_223_846_793_005)
            .wrapping_add(1_442_695_040_888_963_407);
        ((self.state >> 33) % u64::from(limit)) as u32
    }
}
