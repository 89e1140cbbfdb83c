//! What is kept of a request that a caller has opened.
ghost use Rattle.std.specs.Prelude.{◌≡◌};
ghost use Rattle.link_steps.specs.Lists.{Each};
ghost use Rattle.scenario_reader.specs.Uses.{IsLight, blank, use_at, sent, shut, left, joined, used_by, with_use};

use call_script::Op;
use net_units::ChanNo;

// What its caller has done with a request since it was opened, and what it has to carry.
#[derive(Clone, Copy)]
pub(crate) struct Uses {
    pub(crate) closed: bool,
    // Whether a move has left it.
    pub(crate) left: bool,
    // Whether it was sent on, closed or left.
    pub(crate) used: bool,
    // Whether a move has joined it.
    pub(crate) joined: bool,
    // The most packets of one of its sends, or of the request whose packets moved to it.
    pub(crate) load: u64,
}

// Nothing was done with it.
pub(crate) fn blank() -> Uses
    ensures { result ≡ blank }
{
    Uses {
        closed: false,
        left: false,
        used: false,
        joined: false,
        load: 0,
    }
}

// What was done with the request of a channel; nothing where it isn't there.
pub(crate) fn use_at(uses: &[Uses], chan: ChanNo) -> Uses
    requires { Each IsLight uses.now }
    ensures value { result ≡ use_at uses.now chan }
    ensures light { IsLight result }
{
    match uses.get(chan.get() as usize) {
        Some(one) => *one,
        None => blank(),
    }
}

impl Uses {
    // Sent on: this many packets.
    fn sent(self, count: u64) -> Uses
        ensures { result ≡ sent count self }
    {
        Uses {
            used: true,
            load: count.max(self.load),
            ..self
        }
    }

    // Closed.
    fn shut(self) -> Uses
        ensures { result ≡ shut self }
    {
        Uses {
            closed: true,
            used: true,
            ..self
        }
    }

    // Left by a move.
    fn left(self) -> Uses
        ensures { result ≡ left self }
    {
        Uses {
            left: true,
            used: true,
            ..self
        }
    }

    // Joined by a move, with what the request that it leaves has to carry.
    fn joined(self, load: u64) -> Uses
        ensures { result ≡ joined load self }
    {
        Uses {
            joined: true,
            load: load.max(self.load),
            ..self
        }
    }
}

// With one more operation.
pub(crate) fn use_by(uses: &mut Vec<Uses>, op: &Op)
    requires light { Each IsLight uses.old.items }
    ensures value { uses.new.items ≡ used_by op.now uses.old.items }
{
    match op {
        Op::Open(_) | Op::Pour { .. } => {}
        Op::Send { chan, count, .. } => {
            let was = use_at(uses, *chan);
            put_use(uses, *chan, was.sent(*count));
        }
        Op::Close(chan) => {
            let was = use_at(uses, *chan);
            put_use(uses, *chan, was.shut());
        }
        Op::Move { old, new } => {
            let was = use_at(uses, *old);
            put_use(uses, *old, was.left());
            let joins = use_at(uses, *new);
            put_use(uses, *new, joins.joined(was.load));
        }
    }
}

// Replaces what was done with the request of a channel that is there.
fn put_use(uses: &mut Vec<Uses>, chan: ChanNo, now: Uses)
    ensures { uses.new.items ≡ with_use chan now uses.old.items }
{
    let place = chan.get() as usize;
    if place < uses.len() {
        uses[place] = now;
    }
}
