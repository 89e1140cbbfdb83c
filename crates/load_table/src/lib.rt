//! How full a link is: the work at each level beside its bound, the least bound that would hold all its channels, and the part of the
//! link that they take in the long run.
//!
//! Each number is of the rows that it is asked about: those that the link holds, or all that are asked for, or those of one group.
#![tactic(auto)]

mod link;
mod share;
mod window;
mod work;

pub use link::{LinkNumbers, LinkRow};
pub use share::{WHOLE, long_run};
pub use window::{LevelLoad, least_bound, least_window, level_load};
pub use work::{load, work_up_to};
