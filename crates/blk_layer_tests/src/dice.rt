//! Numbers that look drawn, and are the same at each run.

ghost use Rattle.std.specs.Prelude.{◌<◌};

/// A linear congruential generator, by Knuth's numbers for 64 bits, and how often calls were drawn.
#[derive(Drop)]
pub struct Dice {
    state: u64,
    /// How many calls were drawn.
    pub calls: u64,
}

impl Dice {
    /// The same ones each time.
    pub fn new() -> Dice {
        Dice { state: 1, calls: 0 }
    }

    /// A number below the given one.
    pub fn below(&mut self, count: u64) -> u64
        requires { 0 < count }
    {
        self.state = self
            .state
            .wrapping_mul(6_364_136_223_846_793_005)
            .wrapping_add(1_442_695_040_888_963_407);
        (self.state >> 33) % count
    }
}
