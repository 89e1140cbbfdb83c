//! What a run tells: what its request has come to, and which packets have left a link.
use link_steps::{Reply, Sent};
use net_units::OutOfMemory;
use setup_protocol::Verdict;

/// What a run tells of its one channel.
#[derive(Drop)]
pub struct Told {
    /// What its request has come to: None while its setup has an ask left.
    pub verdict: Option<Verdict>,
    /// Each departure of a packet from a link, in the order of time.
    pub sents: Vec<Sent>,
}

impl Told {
    /// The delay of the packet of this number, in ticks: from its arrival at the first link to its arrival at the far end of the last
    /// one. None while it is on its way.
    pub fn delay(&self, number: u64) -> Option<u64> {
        let first = self.sents.iter().find(|sent| sent.packet.number == number)?;
        let last = self
            .sents
            .iter()
            .find(|sent| sent.packet.number == number && sent.next.is_none())?;
        last.arrives.checked_sub(first.at)
    }
}

/// Adds the packet that has left a link by this reply, if one has: a tick tells at most one.
pub fn note(sents: &mut Vec<Sent>, reply: &Reply) -> Result<(), OutOfMemory> {
    if let Reply::Ticked {
        sent: Some(sent),
        ..
    } = reply
    {
        sents.push(*sent)?;
    }
    Ok(())
}
