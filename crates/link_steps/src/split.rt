//! A link that is split between groups of channels.
ghost use Rattle.std.specs.Prelude.{◌≡◌, IfOk};
ghost use Rattle.link_steps.specs.Split.{AreQuotas};

use crate::quota::Quota;
use net_units::{Bounds, OutOfMemory};
use std::alloc::Global;
use std::marker::Model;
use std::vec::Vec;

/// How a link is split between groups of channels: the quota of each group, and the group of each channel number. (The
/// split is *ours*.)
///
/// A contract sees the two lists. A link without quotas isn't split.
#[derive(Drop)]
pub struct Split {
    quotas: Vec<Quota>,
    groups: Vec<u8>,
}

impl Model for Split {
    ghost use Rattle.link_steps.specs.Split.{Split};

    ghost Value = { Split };

    ghost view = { λ s. record { quotas = s.quotas.items; groups = s.groups.items } };
}

impl Split {
    /// These quotas on a link whose levels have these bounds, and the group of each channel number from 0 on: from 1 to 4,
    /// or 0 for none. Each group has at most one quota, which has no load after the link's last level.
    pub fn new(
        alloc: Global,
        bounds: Bounds,
        quotas: &[Quota],
        groups: &[u8],
    ) -> Result<Split, OutOfMemory>
        requires { AreQuotas bounds quotas.now }
        ensures quotas { IfOk result (λ split. split.quotas ≡ quotas.now) }
        ensures groups { IfOk result (λ split. split.groups ≡ groups.now) }
    {
        Ok(Split {
            quotas: Vec::from_slice(alloc, quotas).map_err(|_| OutOfMemory)?,
            groups: Vec::from_slice(alloc, groups).map_err(|_| OutOfMemory)?,
        })
    }

    /// The quotas, in the order in which they were given.
    pub fn quotas(&self) -> &[Quota]
        ensures { result.now ≡ self.now.quotas }
    {
        self.quotas.as_slice()
    }

    /// The group of each channel number from 0 on, 0 for none. A number beyond the list has no group.
    pub fn groups(&self) -> &[u8]
        ensures { result.now ≡ self.now.groups }
    {
        self.groups.as_slice()
    }
}
