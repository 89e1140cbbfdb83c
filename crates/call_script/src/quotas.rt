//! The quotas of a link.
ghost use Rattle.std.specs.Prelude.{◌≡◌, ◌++◌, ◌∷◌, [], OnOk, OnErr};
ghost use Rattle.call_script.specs.Groups.{quotas_fit};

use crate::rules::quotas::fit_with;
use link_steps::{LinkShape, Quota};
use net_units::OutOfMemory;
use std::alloc::Global;
use std::marker::Model;

/// The quotas of the groups that have a share of a link, in the order in which they were given.
///
/// A contract sees the list of them.
#[derive(Drop)]
pub struct Quotas {
    quotas: Vec<Quota>,
}

impl Model for Quotas {
    ghost use Rattle.std.specs.Prelude.{List};
    ghost use Rattle.link_steps.specs.declared.quota.Quota.{Quota};

    ghost Value = { List Quota };

    ghost view = { λ q. q.quotas.items };
}

impl Quotas {
    /// No quotas: those of a link that isn't split. It takes no memory.
    pub fn none(alloc: Global) -> Quotas
        ensures { result ≡ [] }
    {
        Quotas {
            quotas: Vec::new(alloc),
        }
    }

    /// These quotas.
    pub fn new(items: Vec<Quota>) -> Quotas
        ensures { result ≡ items.items }
    {
        Quotas { quotas: items }
    }

    /// Adds a quota at the end. Where memory runs out, nothing changes.
    pub fn push(&mut self, quota: Quota) -> Result<(), OutOfMemory>
        ensures ok { OnOk result (self.new ≡ self.old ++ quota ∷ []) }
        ensures err { OnErr result (self.new ≡ self.old) }
    {
        self.quotas.push(quota)?;
        Ok(())
    }

    /// The quotas.
    pub fn as_slice(&self) -> &[Quota]
        ensures { result.now ≡ self.now }
    {
        self.quotas.as_slice()
    }

    /// Whether a link of this shape can be split by these quotas and one more: at each level they leave room for the blocking within
    /// its bound, and they fit its buffer.
    pub fn fit_with(&self, shape: &LinkShape, more: &Quota) -> bool
        ensures { result ≡ quotas_fit shape.now (self.now ++ more.now ∷ []) }
    {
        fit_with(shape, self.quotas.as_slice(), more)
    }

    /// The quotas, without taking memory.
    pub fn into_vec(self) -> Vec<Quota>
        ensures { result.items ≡ self }
    {
        self.quotas
    }
}
