//! The parts of a plan, with their names.
ghost use Rattle.std.specs.Prelude.{◌≡◌, ◌++◌, ◌∷◌, [], OnErr, OnOk};
ghost use Rattle.std.specs.List.{slice_get};
ghost use Rattle.net_units.specs.Numbers.{actor_number};
ghost use Rattle.call_script.specs.ActorNames.{name_of_actor};

use crate::operations::Ops;
use crate::quotas::Quotas;
use link_steps::LinkShape;
use net_units::{ActorNo, Name};
use setup_protocol::Request;
use std::alloc::AllocError;

/// A link of the network.
#[derive(Drop)]
pub struct LinkEntry {
    /// Its name.
    pub name: Name,
    /// The node where it begins.
    pub from: Name,
    /// The node where it ends.
    pub to: Name,
    /// Its number and its parameters.
    pub shape: LinkShape,
    /// The quotas of the groups that have a share of it; a link without quotas isn't split.
    pub quotas: Quotas,
}

/// A request for a channel.
#[derive(Clone, Copy)]
pub struct RequestEntry {
    /// Its name.
    pub name: Name,
    /// The caller that opens it.
    pub caller: ActorNo,
    /// What is asked for.
    pub request: Request,
    /// The nodes between which its route was found, None where its links were given.
    pub found: Option<(Name, Name)>,
}

/// A caller.
#[derive(Drop)]
pub struct CallerEntry {
    /// Its name.
    pub name: Name,
    /// The number of its group, from 1, or 0 for none.
    pub group: u8,
    /// What it does, in order.
    pub ops: Ops,
}

/// The name of an actor in the lines of a schedule: the name of the caller with its number, or `plane` where there is none.
pub fn actor_name(callers: &[CallerEntry], actor: ActorNo) -> &str
    ensures { result.now ≡ name_of_actor (slice_get callers.now (actor_number actor)) }
{
    match callers.get(usize::from(actor.get())) {
        Some(caller) => caller.name.as_str(),
        None => "plane",
    }
}

/// Adds a request at the end of the list. Where memory runs out, the list stays as it was.
pub fn push_request(requests: &mut Vec<RequestEntry>, entry: RequestEntry) -> Result<(), AllocError>
    ensures ok { OnOk result (requests.new.items ≡ requests.old.items ++ entry ∷ []) }
    ensures err { OnErr result (requests.new.items ≡ requests.old.items) }
{
    push(requests, entry)
}

// A push at a type with an option of names in it is proved in a function over any type, and not where it is called.
fn push<T: Copy>(items: &mut Vec<T>, item: T) -> Result<(), AllocError>
    ensures ok { OnOk result (items.new.items ≡ items.old.items ++ item ∷ []) }
    ensures err { OnErr result (items.new.items ≡ items.old.items) }
{
    items.push(item)?;
    Ok(())
}
