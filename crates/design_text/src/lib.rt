//! What a design file says: the links and streams of a network in the numbers of the field, or all that is wrong with the file.
//!
//! A design is a TOML text. [`read_design`] makes a [`Design`] of it, or tells every mistake, each with its file, its line and its key, what
//! stands there and what may stand there.
#![tactic(auto)]

mod agreement;
pub mod design;
pub mod field;
pub mod keys;
mod links;
mod marks;
pub mod mistake;
mod network;
mod parts;
mod pours;
mod quotas;
mod read;
mod rows;
mod sheets;
mod spread;
mod streams;
mod values;

pub use design::{Design, DesignLink, DesignPour, DesignQuota, DesignStream, Way};
pub use field::{Field, Kind, Place, Row};
pub use mistake::{Mistake, Mistakes};
pub use read::{BadDesign, File, read_design};
