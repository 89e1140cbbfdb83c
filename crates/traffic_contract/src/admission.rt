//! How a link tests whether its rows pass.

/// Which windows count when the load of a level is compared with a window's length.
#[derive(Clone, Copy, Debug, PartialEq, Eq)]
pub enum Test {
    /// In the window as long as the level's bound.
    Whole,
    /// In some window of one tick or more, up to the level's bound.
    Least,
}
