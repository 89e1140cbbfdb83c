//! The forms of a scenario's lines: what a line's fields have to be, what they say, and the text of what is said.
#![tactic(auto)]

pub mod cause;
pub mod fields;
pub mod form;
pub mod known;
pub mod laws;
pub mod number;
pub mod reading;
pub mod slot;
pub mod value;
pub mod word;
pub mod writing;

pub use cause::FieldCause;
pub use fields::Fields;
pub use form::{Part, has_form};
pub use known::{Known, Set};
pub use reading::Reader;
pub use slot::Slot;
pub use value::{FewValues, FieldValue, Values};
pub use word::Keyword;
pub use writing::write_form;
