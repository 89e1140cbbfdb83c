//! Names, of which no two may be the same.
ghost use Rattle.std.specs.Prelude.{◌≡◌, IfOk};
ghost use Rattle.call_script.specs.Rules.{are_distinct, link_names, caller_names, request_names};

use crate::entries::{CallerEntry, LinkEntry, RequestEntry};
use net_units::{Name, OutOfMemory};
use std::alloc::Global;
use std::collections::HashSet;

pub(crate) fn link_names(alloc: Global, links: &[LinkEntry]) -> Result<Vec<Name>, OutOfMemory>
    ensures { IfOk result (λ names. names.items ≡ link_names links.now) }
{
    Ok(links.iter().map(|entry| entry.name).collect(alloc)?)
}

pub(crate) fn caller_names(alloc: Global, callers: &[CallerEntry]) -> Result<Vec<Name>, OutOfMemory>
    ensures { IfOk result (λ names. names.items ≡ caller_names callers.now) }
{
    Ok(callers.iter().map(|caller| caller.name).collect(alloc)?)
}

pub(crate) fn request_names(
    alloc: Global,
    requests: &[RequestEntry],
) -> Result<Vec<Name>, OutOfMemory>
    ensures { IfOk result (λ names. names.items ≡ request_names requests.now) }
{
    Ok(requests.iter().map(|entry| entry.name).collect(alloc)?)
}

// Whether no name stands twice.
pub(crate) fn are_distinct(alloc: Global, names: &[Name]) -> Result<bool, OutOfMemory>
    ensures { IfOk result (λ distinct. distinct ≡ are_distinct names.now) }
{
    let mut seen = HashSet::new(alloc);
    for name in names {
        if !seen.insert(*name)? {
            return Ok(false);
        }
    }
    Ok(true)
}
