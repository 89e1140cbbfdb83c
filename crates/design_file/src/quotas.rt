//! The shares that groups have of a link.
ghost use Rattle.std.specs.Prelude.{◌≡◌, ◌≤◌, length, IfOk, OnOk};
ghost use Rattle.std.specs.List.{AllZip};
ghost use Rattle.scenario_reader.specs.line.Quota.{in_eight};
ghost use Rattle.design_file.specs.Rounded.{AddsQuota, IsQuotaOf};

use crate::links::ticks_of;
use crate::refusal::{Refusal, Wrong};
use design_text::DesignQuota;
use field_units::Scale;
use link_steps::Quota;
use net_units::Bounds;
use net_units::limits::MOST_LEVELS;
use std::alloc::Global;

/// The quotas of a link with these bounds, each rounded, in their order.
pub(crate) fn quotas_of(
    alloc: Global,
    scale: &Scale,
    bounds: &Bounds,
    shares: &[DesignQuota],
) -> Result<Vec<Quota>, Refusal>
    ensures { IfOk result (λ quotas. AllZip (IsQuotaOf scale.now.tick scale.now.unit bounds.now) shares.now quotas.items) }
{
    let mut quotas = Vec::new(alloc);
    for share in shares {
        add_quota(alloc, scale, bounds, share, &mut quotas)?;
    }
    Ok(quotas)
}

// Adds the quota of a share.
fn add_quota(
    alloc: Global,
    scale: &Scale,
    bounds: &Bounds,
    share: &DesignQuota,
    quotas: &mut Vec<Quota>,
) -> Result<(), Refusal>
    ensures { OnOk result (AddsQuota scale.now.tick scale.now.unit bounds.now share.now quotas.old.items quotas.new.items) }
{
    let quota = quota_of(alloc, scale, bounds, share)?;
    quotas.push(quota)?;
    Ok(())
}

// The quota of a share.
pub(crate) fn quota_of(
    alloc: Global,
    scale: &Scale,
    bounds: &Bounds,
    share: &DesignQuota,
) -> Result<Quota, Refusal>
    ensures { IfOk result (IsQuotaOf scale.now.tick scale.now.unit bounds.now share.now) }
{
    let ticks = ticks_of(alloc, scale, &share.levels)?;
    if ticks.len() != usize::from(bounds.len()) || ticks.len() > usize::from(MOST_LEVELS) {
        return Err(Refusal::Wrong(Wrong::ShareLevels));
    }
    Ok(Quota {
        group: share.group,
        buffer: scale.room(share.buffer),
        levels: with_zeros(&ticks),
    })
}

// These ticks, and zeros after them.
fn with_zeros(ticks: &[u32]) -> [u32; MOST_LEVELS as usize]
    requires { length ticks.now ≤ 8 }
    ensures { result ≡ in_eight ticks.now }
{
    let mut cells = [0; MOST_LEVELS as usize];
    cells[..ticks.len()].copy_from_slice(ticks);
    cells
}
