//! What a question wants in place of what the plan says.
ghost use Rattle.std.specs.Prelude.{◌≡◌};
ghost use Rattle.net_units.specs.Numbers.{channel_number};
ghost use Rattle.question_plans.specs.Alone.{changed_request, control_in, delay_in};

use setup_protocol::{Control, Request};

/// What a question wants for one request of a plan, by its number, in place of what the plan says.
#[derive(Clone, Copy, Debug, PartialEq, Eq)]
pub enum Change {
    /// Nothing else.
    Nothing,
    /// Another bound on its delay, in ticks.
    Delay { number: usize, delay: u64 },
    /// Jitter control, with this bound, in ticks.
    Jitter { number: usize, jitter: u64 },
}

impl Change {
    /// The request with what is wanted.
    pub fn apply(&self, request: &Request) -> Request
        ensures { result ≡ changed_request self.now request.now }
    {
        Request {
            chan: request.chan,
            route: request.route,
            contract: request.contract,
            control: self.control(request),
            delay: self.delay(request),
        }
    }

    // The delay that is wanted.
    fn delay(&self, request: &Request) -> u64
        ensures { result ≡ delay_in self.now (channel_number request.now.chan) request.now.delay }
    {
        match *self {
            Change::Delay { number, delay } if number == request.chan.get() as usize => delay,
            _ => request.delay,
        }
    }

    // The control that is wanted.
    fn control(&self, request: &Request) -> Control
        ensures { result ≡ control_in self.now (channel_number request.now.chan) request.now.control }
    {
        match *self {
            Change::Jitter { number, jitter } if number == request.chan.get() as usize =>
                Control::Jitter(jitter),
            _ => request.control,
        }
    }
}
