// Draws: a linear congruential generator.

ghost use Rattle.std.specs.Prelude.{◌≡◌, ◌<◌, ◌^◌, ◌/◌};
ghost use Rattle.pb_make.specs.Draws.{next_state};

/// A linear congruential generator modulo 2^64, with the constants of MMIX (Knuth).
#[derive(Clone, Copy, Debug)]
pub struct Draws {
    pub state: u64,
}

impl Draws {
    /// The next draw, below 2^31.
    pub fn draw(&mut self) -> u32
        ensures value { result ≡ next_state self.old.state / 2 ^ 33 }
        ensures state { self.new.state ≡ next_state self.old.state }
    {
        self.state = next_state(self.state);
        upper_bits(self.state)
    }
}

// The state after a draw.
fn next_state(state: u64) -> u64
    ensures { result ≡ next_state state }
{
    let next = u128::from(state) * 6_364_136_223_846_793_005 + 1_442_695_040_888_963_407;
    (next % (1 << 64)) as u64
}

// The upper 31 bits of a state.
fn upper_bits(state: u64) -> u32
    ensures { result ≡ state / 2 ^ 33 }
{
    (state / (1 << 33)) as u32
}
