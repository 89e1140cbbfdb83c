//! Numbers in their ranges.
ghost use Rattle.std.specs.Prelude.{◌≡◌, IsTrue};
ghost use Rattle.std.specs.List.{list_all};
ghost use Rattle.link_steps.specs.Lists.{Each};
ghost use Rattle.call_script.specs.Plans.{HasTerms};
ghost use Rattle.call_script.specs.Rules.{all_ops, request_in_range, packets_in_range, amount_in_range, op_in_range};

use crate::attributes::{Amount, attributes_of};
use crate::entries::{CallerEntry, RequestEntry};
use crate::operations::Op;
use net_units::limits::{MOST_DELAY, MOST_GAP, MOST_PACKETS, MOST_SIZE};
use setup_protocol::Control;

pub(crate) fn requests_in_range(requests: &[RequestEntry]) -> bool
    ensures value { result ≡ list_all request_in_range requests.now }
    ensures terms { IsTrue result → Each HasTerms requests.now }
{
    for entry in requests {
        if !request_in_range(entry) {
            return false;
        }
    }
    true
}

// The contract and the route keep their own limits.
fn request_in_range(entry: &RequestEntry) -> bool
    ensures value { result ≡ request_in_range entry.now }
    ensures terms { HasTerms entry.now }
{
    let request = &entry.request;
    let (_burst, _hops) = (request.contract.burst(), request.route.len());
    let bounded = match request.control {
        Control::Rate => true,
        Control::Jitter(bound) => 1 <= bound && bound <= MOST_DELAY,
    };
    1 <= request.delay && request.delay <= MOST_DELAY && bounded
}

pub(crate) fn callers_in_range(callers: &[CallerEntry]) -> bool
    ensures { result ≡ all_ops op_in_range callers.now }
{
    callers
        .iter()
        .all(|caller| ops_in_range(caller.ops.as_slice()))
}

fn ops_in_range(ops: &[Op]) -> bool
    ensures { result ≡ list_all op_in_range ops.now }
{
    ops.iter().all(|op| op_in_range(op))
}

fn op_in_range(op: &Op) -> bool
    ensures { result ≡ op_in_range op.now }
{
    let own = attributes_of(op);
    amount_in_range(&own.amount)
}

fn amount_in_range(amount: &Amount) -> bool
    ensures { result ≡ amount_in_range amount.now }
{
    match amount {
        Amount::Fresh { count, gap, size } => packets_in_range(*count, *gap, *size),
        Amount::Nothing | Amount::Carried(_) => true,
    }
}

fn packets_in_range(count: u64, gap: u64, size: u32) -> bool
    ensures { result ≡ packets_in_range count gap size }
{
    1 <= count
        && count <= MOST_PACKETS
        && 1 <= gap
        && gap <= u64::from(MOST_GAP)
        && 1 <= size
        && size <= MOST_SIZE
}
