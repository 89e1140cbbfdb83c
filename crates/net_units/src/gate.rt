//! Where a test may hold a step of a running network.
use crate::numbers::{ActorNo, LinkNo};

/// Called around each step of a running network, so that a test can order the steps of several threads. It promises
/// nothing but that its calls return.
pub trait Gate {
    /// Called under the link's lock, before the step's stamp is drawn and the step is made.
    fn within(&self, link: LinkNo, actor: ActorNo);

    /// Called once the link's lock is released.
    fn after(&self, link: LinkNo, actor: ActorNo);
}

/// The gate that the program uses: it does nothing.
#[derive(Clone, Copy, Debug)]
pub struct NoGate;

impl Gate for NoGate {
    fn within(&self, _link: LinkNo, _actor: ActorNo) {}

    fn after(&self, _link: LinkNo, _actor: ActorNo) {}
}
