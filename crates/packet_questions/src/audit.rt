//! Which rows of a table of measured packets break a promise.
ghost use Rattle.std.specs.Prelude.{IfOk};
ghost use Rattle.packet_questions.specs.Audits.{IsAuditOf, IsJudgedBy};

use crate::faults::answer_of;
use crate::fields::Clock;
use crate::table::{BadLine, Table, read_table};
use answer_grids::Answer;
use network_files::Network;
use packet_answers::{Judged, Promises, Trouble, judge, play};
use packet_audit::Row;
use std::alloc::Global;

/// By how many ticks more two delays may differ where moments aren't those of ticks. A packet that is sent between two ticks is taken
/// with the next one, and one that arrives between two ticks arrives with the next one.
pub const ROUNDING: u64 = 2;

/// What was found of a table.
#[derive(Drop)]
pub enum Audit {
    /// It can be read.
    Read {
        /// The packets, in the order of the lines, with their moments in ticks.
        rows: Vec<Row>,
        /// By how many ticks more two delays may differ: `ROUNDING` where a moment isn't that of a tick, and otherwise 0.
        rounding: u64,
        /// With what they were compared, and what was found of them.
        judged: Judged,
        /// That as a table.
        answer: Answer,
    },
    /// It can't: its first bad lines, at most `MOST_TOLD`, and how many more there are.
    Bad {
        lines: Vec<BadLine>,
        more: usize,
    },
}

/// Which rows of a table of measured packets break what the channels of a network were promised in its run by its schedule. It is a yes
/// where there is none.
///
/// The table is CSV: `channel,packet,sent,arrived`, and then a line for each packet. A channel is the name of a request. Its packets are
/// numbered from 1, in the order in which they were sent. A moment is a whole number of ticks, or a time such as `1.25 ms` where the
/// length of a tick is known. `Memory` comes only for want of memory, and `Step` where a line of the schedule asks for a step that
/// isn't left.
pub fn audit_of(alloc: Global, network: &Network, table: &[u8]) -> Result<Audit, Trouble>
    ensures { IfOk result (IsAuditOf network.now.plan network.now.schedule) }
{
    let played = play(alloc, &network.plan, &network.schedule)?;
    let promises = Promises::new(alloc, &network.plan, &played)?;
    let audit = audit_by(alloc, network, &promises, table)?;
    Ok(audit)
}

// The same, by these promises.
fn audit_by(
    alloc: Global,
    network: &Network,
    promises: &Promises,
    table: &[u8],
) -> Result<Audit, Trouble>
    ensures { IfOk result (IsJudgedBy promises.now.list.items) }
{
    let clock = Clock::new(network.tick);
    let table = read_table(alloc, &network.plan, promises, &clock, table)?;
    if table.bad.is_empty() {
        let audit = judged(alloc, network, promises, table)?;
        return Ok(audit);
    }
    Ok(Audit::Bad {
        lines: table.bad,
        more: table.more,
    })
}

// Judges a table that was read.
fn judged(
    alloc: Global,
    network: &Network,
    promises: &Promises,
    table: Table,
) -> Result<Audit, Trouble>
    ensures { IfOk result (IsJudgedBy promises.now.list.items) }
{
    let rounding = if table.is_rounded { ROUNDING } else { 0 };
    let judged = judge(alloc, promises, rounding, table.rows.as_slice())?;
    let answer = answer_of(
        alloc,
        &network.plan,
        network.tick,
        promises,
        &table,
        judged.found.as_slice(),
    )?;
    Ok(Audit::Read {
        rows: table.rows,
        rounding,
        judged,
        answer,
    })
}
