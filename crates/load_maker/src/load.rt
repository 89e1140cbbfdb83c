//! What is drawn for a request.
ghost use Rattle.std.specs.Prelude.{◌≡◌, ◌<◌};
ghost use Rattle.load_maker.specs.Draws.{state_after};
ghost use Rattle.load_maker.specs.Loads.{contract_drawn, control_of, load_from};

use crate::draws::Draws;
use setup_protocol::Control;
use traffic_contract::Contract;

/// What is drawn for a request.
#[derive(Clone, Copy)]
pub struct Load {
    /// How many links its route has, from 1 to 4.
    pub hops: usize,
    /// The first of them, from 0.
    pub first: usize,
    /// What its source may send.
    pub contract: Contract,
    /// The bound on its end-to-end delay, in ticks.
    pub delay: u64,
    /// How its jitter is controlled.
    pub control: Control,
    /// How many packets are sent, from 1 to 16.
    pub count: u64,
}

impl Draws {
    // The load of the next request.
    #[tactic(auto, unfolding(crate::specs::Draws::state_after))]
    pub(crate) fn load(&mut self) -> Load
        ensures state { self.new.state ≡ state_after 6 self.old.state }
        ensures value { result ≡ load_from self.old.state }
    {
        let hops = 1 + self.draw() % 4;
        let first = self.draw() % (5 - hops);
        let contract = contract(self.draw() % 4);
        let delay = 105 * hops + 400 * (self.draw() % 4);
        let control = control(self.draw() % 2);
        let count = 1 + self.draw() % 16;
        Load {
            hops: hops as usize,
            first: first as usize,
            contract,
            delay,
            control,
            count,
        }
    }
}

// One of the four contracts.
fn contract(kind: u64) -> Contract
    requires { kind < 4 }
    ensures { result ≡ contract_drawn kind }
{
    let made = match kind {
        0 => Contract::new(20, 40, 200, 50),
        1 => Contract::new(50, 100, 400, 100),
        2 => Contract::new(200, 200, 200, 20),
        _ => Contract::new(10, 50, 500, 30),
    };
    match made {
        Ok(contract) => contract,
        Err(_) => unreachable!(),
    }
}

// Rate-jitter control where the draw is even, or else delay-jitter control.
fn control(odd: u64) -> Control
    requires { odd < 2 }
    ensures { result ≡ control_of odd }
{
    if odd == 0 {
        Control::Rate
    } else {
        Control::Jitter(400)
    }
}
