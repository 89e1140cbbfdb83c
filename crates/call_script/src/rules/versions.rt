//! Links, requests and operations of a version.
ghost use Rattle.std.specs.Prelude.{◌≡◌};
ghost use Rattle.std.specs.List.{list_all};
ghost use Rattle.call_script.specs.Rules.{all_ops, link_has_version, request_has_version, op_has_version};
ghost use Rattle.call_script.specs.Versions.{has_feature};

use crate::attributes::{Feature, attributes_of};
use crate::entries::{CallerEntry, LinkEntry, RequestEntry};
use crate::operations::Op;
use crate::version::Version;

pub(crate) fn links_have_version(version: Version, links: &[LinkEntry]) -> bool
    ensures { result ≡ list_all (link_has_version version) links.now }
{
    links.iter().all(|entry| link_has_version(version, entry))
}

fn link_has_version(version: Version, entry: &LinkEntry) -> bool
    ensures { result ≡ link_has_version version entry.now }
{
    version.test() == entry.shape.test && (version.has_best_effort() || entry.shape.best == 0)
}

pub(crate) fn requests_have_version(version: Version, requests: &[RequestEntry]) -> bool
    ensures { result ≡ list_all (request_has_version version) requests.now }
{
    requests
        .iter()
        .all(|entry| request_has_version(version, entry))
}

fn request_has_version(version: Version, entry: &RequestEntry) -> bool
    ensures { result ≡ request_has_version version entry.now }
{
    version.has_found_routes() || entry.found.is_none()
}

pub(crate) fn callers_have_version(version: Version, callers: &[CallerEntry]) -> bool
    ensures { result ≡ all_ops (op_has_version version) callers.now }
{
    callers
        .iter()
        .all(|caller| ops_have_version(version, caller.ops.as_slice()))
}

fn ops_have_version(version: Version, ops: &[Op]) -> bool
    ensures { result ≡ list_all (op_has_version version) ops.now }
{
    ops.iter().all(|op| op_has_version(version, op))
}

fn op_has_version(version: Version, op: &Op) -> bool
    ensures { result ≡ op_has_version version op.now }
{
    let own = attributes_of(op);
    has_feature(version, own.needs)
}

fn has_feature(version: Version, needed: Feature) -> bool
    ensures { result ≡ has_feature version needed }
{
    match needed {
        Feature::Always => true,
        Feature::BestEffort => version.has_best_effort(),
        Feature::Moves => version.has_moves(),
    }
}
