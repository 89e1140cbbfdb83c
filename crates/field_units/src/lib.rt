//! Times, sizes and rates of the field, and their safe rounding to the ticks and units of a scenario.
//!
//! The numbers of a network are known in Mbit/s, milliseconds and bytes, and a scenario has ticks and units. `Time`, `Size` and
//! `Rate` are read from text as engineers write them, and `Scale` rounds them so that what a report promises in ticks is kept in
//! the field. `laws` says what that means, for any moments. No number here is a float.
#![tactic(auto)]

pub mod laws;
pub mod quantity;
pub mod rounded;
pub mod scale;
pub mod serving;
pub mod stream;
pub mod text;

pub use quantity::{Rate, Size, Time};
pub use rounded::Rounded;
pub use scale::{Misfit, Scale};
pub use stream::{BadStream, Stream};
