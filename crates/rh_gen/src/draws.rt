//! A stream of numbers.
ghost use Rattle.std.specs.Prelude.{◌≡◌, ◌<◌};
ghost use Rattle.rh_gen.specs.Draws.{drawn, next};

const MULTIPLIER: u64 = 6_364_136_223_846_793_005;

const INCREMENT: u64 = 1_442_695_040_888_963_407;

/// A linear congruential generator.
#[derive(Drop)]
pub(crate) struct Draws {
    pub(crate) state: u64,
}

impl Draws {
    /// A number below the limit.
    pub(crate) fn draw(&mut self, limit: u32) -> u32
        requires { 0 < limit }
        ensures state { self.new.state ≡ next self.old.state }
        ensures number { result ≡ drawn limit self.new.state }
        ensures below { result < limit }
    {
        self.step();
        ((self.state >> 33) % u64::from(limit)) as u32
    }

    fn step(&mut self)
        ensures { self.new.state ≡ next self.old.state }
    {
        self.state = self.state.wrapping_mul(MULTIPLIER).wrapping_add(INCREMENT);
    }
}
