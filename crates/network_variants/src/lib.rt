//! The variants of a network: the text of a scenario or a design, with other numbers in some of its places.
//!
//! A change is a word as `L34.D1=20..26`: where, and which values. Several changes give all combinations, the last changing fastest.
#![tactic(auto)]

mod bad;
mod cutting;
mod design;
mod fields;
mod finding;
mod laws;
mod making;
mod scenario;
mod toml_scan;
mod values;
mod variants;
mod wanted;

pub use bad::BadChange;
pub use laws::each_combination_once;
pub use making::{Form, MOST_VARIANTS, variants_of};
pub use variants::{Change, Line, Place, Variants};
