//! How full a link is, in a word.
use crate::facts::{FillFacts, LevelFacts, LinkFacts};

/// How full a level is.
#[derive(Clone, Copy, Debug, PartialEq, Eq)]
pub enum Fullness {
    /// Less than 60 percent.
    Free,
    /// From 60 percent on.
    Busy,
    /// From 90 percent on, or with work beside which there is no room for one more.
    Full,
}

impl Fullness {
    /// The word for it.
    pub fn word(self) -> &'static str {
        match self {
            Fullness::Free => "free",
            Fullness::Busy => "busy",
            Fullness::Full => "full",
        }
    }
}

/// How full a level is.
pub fn fullness_of(level: &LevelFacts) -> Fullness {
    let part = per_mille(level);
    if part >= 900 || (level.work > 0 && level.room == Some(0)) {
        Fullness::Full
    } else if part >= 600 {
        Fullness::Busy
    } else {
        Fullness::Free
    }
}

/// The fullest level by its place, and its work in thousandths of its bound. One without room is fuller than one that has some.
pub fn fullest(fill: &FillFacts) -> (usize, u64) {
    let mut best = (0, 0);
    let mut most = (false, 0);
    let levels = fill.levels.as_slice();
    for place in 0..levels.len() {
        let rank = rank_of(&levels[place]);
        if rank > most {
            most = rank;
            best = (place, rank.1);
        }
    }
    best
}

// By what levels are compared: whether they are full, and the work in thousandths of the bound.
fn rank_of(level: &LevelFacts) -> (bool, u64) {
    (fullness_of(level) == Fullness::Full, per_mille(level))
}

/// The work of a level in thousandths of its bound, rounded up.
pub fn per_mille(level: &LevelFacts) -> u64 {
    let work = level.work.saturating_mul(1000);
    work.div_ceil(level.bound.max(1))
}

/// How full a link is, or a group's share of it, in a word: that of its fullest level.
pub fn fill_word(fill: &FillFacts) -> &'static str {
    match fill.levels.get(fullest(fill).0) {
        Some(level) => fullness_of(level).word(),
        None => Fullness::Free.word(),
    }
}

/// The same of a link, which may refuse requests.
pub fn load_word(link: &LinkFacts) -> &'static str {
    if link.refuses > 0 {
        "refuses"
    } else {
        fill_word(&link.fill)
    }
}
