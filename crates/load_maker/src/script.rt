//! The requests of a caller, and what it does.
ghost use Rattle.std.specs.Prelude.{◌≡◌, ◌+◌, ◌<◌, ◌≤◌, ◌++◌, ◌∷◌, [], IfOk, OnOk, length};
ghost use Rattle.net_units.specs.Limits.{most_channels, most_requests};
ghost use Rattle.net_units.specs.Numbers.{actor_at, channel_at};
ghost use Rattle.load_maker.specs.Made.{request_entry_of, ops_for, own_ops, own_requests, request_name};

use crate::draws::Draws;
use crate::links::route;
use crate::load::Load;
use call_script::{Op, RequestEntry, push_request};
use net_units::{ActorNo, ChanNo, Name, OutOfMemory};
use setup_protocol::Request;
use std::alloc::Global;

// Adds the requests of a caller among the first `size` ones after those of the callers before it, and answers what the caller does. The
// draws begin anew for each caller, so nothing is kept of the requests of the others.
pub(crate) fn script(
    alloc: Global,
    number: u32,
    size: u32,
    caller: u8,
    requests: &mut Vec<RequestEntry>,
) -> Result<Vec<Op>, OutOfMemory>
    requires number { number < 2147483648 }
    requires size { size ≤ most_requests }
    requires caller { caller < 4 }
    requires few { length requests.old.items ≤ most_requests }
    ensures requests { OnOk result (requests.new.items ≡ requests.old.items ++ own_requests number (length requests.old.items) caller size) }
    ensures ops { IfOk result (λ ops. ops.items ≡ own_ops number (length requests.old.items) caller size) }
{
    let first = requests.len();
    let mut ops = Vec::new(alloc);
    let mut draws = Draws::new(number);
    for n in 0..size {
        let load = draws.load();
        if n % 4 == u32::from(caller) {
            let chan = requests.len();
            add_request(alloc, requests, &load, n, caller, chan)?;
            push_ops(&mut ops, &load, first, chan - first)?;
        }
    }
    Ok(ops)
}

// Adds the request of this number, with its load, its caller and its channel.
fn add_request(
    alloc: Global,
    requests: &mut Vec<RequestEntry>,
    load: &Load,
    number: u32,
    caller: u8,
    chan: usize,
) -> Result<(), OutOfMemory>
    requires some { 1 ≤ load.now.hops }
    requires within { load.now.first + load.now.hops ≤ 4 }
    requires number { number < most_requests }
    requires caller { caller < 4 }
    requires chan { chan < most_channels }
    ensures { OnOk result (requests.new.items ≡ requests.old.items ++ request_entry_of load.now number caller chan ∷ []) }
{
    let name = request_name(alloc, number)?;
    push_request(
        requests,
        RequestEntry {
            name,
            caller: actor(caller),
            request: Request {
                chan: channel(chan),
                route: route(load.first, load.hops),
                contract: load.contract,
                control: load.control,
                delay: load.delay,
            },
            found: None,
        },
    )?;
    Ok(())
}

// Adds what a caller does for the request at this place of its own, the first of which has that channel.
fn push_ops(ops: &mut Vec<Op>, load: &Load, first: usize, place: usize) -> Result<(), OutOfMemory>
    requires { first + place < most_channels }
    ensures { OnOk result (ops.new.items ≡ ops.old.items ++ ops_for load.now first place) }
{
    let chan = channel(first + place);
    ops.push(Op::Open(chan))?;
    ops.push(Op::Send {
        chan,
        count: load.count,
        gap: u64::from(load.contract.xave()),
        size: load.contract.smax(),
    })?;
    if place >= 2 {
        ops.push(Op::Close(channel(first + place - 2)))?;
    }
    Ok(())
}

// The name of a request.
fn request_name(alloc: Global, number: u32) -> Result<Name, OutOfMemory>
    requires { number < most_requests }
    ensures { IfOk result (λ name. name ≡ request_name number) }
{
    let place = number + 1;
    let text = format!(in alloc; "r{place}")?;
    match Name::new(text.as_bytes()) {
        Some(name) => Ok(name),
        None => unreachable!(),
    }
}

// The caller of this number.
fn actor(number: u8) -> ActorNo
    requires { number < 65 }
    ensures { result ≡ actor_at number }
{
    match ActorNo::new(number) {
        Some(actor) => actor,
        None => unreachable!(),
    }
}

// The channel of this number.
fn channel(number: usize) -> ChanNo
    requires { number < most_channels }
    ensures { result ≡ channel_at number }
{
    match ChanNo::new(number as u32) {
        Some(chan) => chan,
        None => unreachable!(),
    }
}
