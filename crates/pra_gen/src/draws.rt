// Random numbers.

ghost use Rattle.std.specs.Prelude.{◌≡◌, ◌^◌, ◌<◌, ◌/◌};
ghost use Rattle.pra_gen.specs.Draws.{next_state};

/// A stream of random numbers below 32768, which follow from its state.
#[derive(Drop)]
pub struct Draws {
    /// The seed, before the first draw.
    pub state: u32,
    ghost in_range: { state < 2 ^ 31 },
}

impl Draws {
    /// The next random number.
    pub fn draw(&mut self) -> u32
        ensures state { self.new.state ≡ next_state self.old.state }
        ensures drawn { result ≡ self.new.state / 65536 }
    {
        self.state = ((1_103_515_245 * self.state as u64 + 12_345) % 2_147_483_648) as u32;
        self.state / 65_536
    }
}
