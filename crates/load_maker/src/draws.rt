//! The numbers that a load is drawn from.
ghost use Rattle.std.specs.Prelude.{◌≡◌, ◌<◌};
ghost use Rattle.load_maker.specs.Draws.{next_state, told_by};

// A linear congruential generator modulo 2^31.
#[derive(Drop)]
pub(crate) struct Draws {
    pub(crate) state: u64,
    ghost small: { state < 2147483648 },
}

impl Draws {
    // The draws of a number below 2^31.
    pub(crate) fn new(number: u32) -> Draws
        requires { number < 2147483648 }
        ensures { result.state ≡ number }
    {
        Draws {
            state: u64::from(number),
        }
    }

    // The next draw, below 32,768.
    pub(crate) fn draw(&mut self) -> u64
        ensures state { self.new.state ≡ next_state self.old.state }
        ensures value { result ≡ told_by self.new.state }
    {
        self.state = (1_103_515_245 * self.state + 12_345) % 2_147_483_648;
        self.state / 65_536
    }
}
