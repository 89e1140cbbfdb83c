//! What a tick and a unit lose of the numbers of a design, number by number.

use design_text::{Design, DesignLink, DesignPour, DesignQuota, DesignStream};
use field_units::{Rate, Scale, Size, Stream, Time};
use std::alloc::{AllocError, Global};
use std::fmt;

/// The picoseconds of a second.
const SECOND: u128 = 1_000_000_000_000;

/// A number of a design that is another one in its scenario.
#[derive(Debug, Drop)]
pub struct Loss {
    /// The name of the file.
    pub file: String,
    /// The line, from 1.
    pub line: u64,
    /// The key.
    pub key: &'static str,
    /// What the design says.
    pub exact: String,
    /// What it is in the scenario; None where the scenario has no such number.
    pub kept: Option<String>,
}

impl fmt::Display for Loss {
    fn fmt<W: fmt::Write>(&self, f: &mut fmt::Formatter<W>) -> fmt::Result {
        let (file, line, key) = (self.file.as_str(), self.line, self.key);
        let exact = self.exact.as_str();
        match &self.kept {
            Some(kept) => write!(f, "{file}:{line}: {key} = {exact}: {kept}"),
            None => write!(f, "{file}:{line}: {key} = {exact}: none"),
        }
    }
}

/// The losses that were found, with the design whose numbers they are.
#[derive(Drop)]
struct Ledger<'a> {
    alloc: Global,
    design: &'a Design,
    list: Vec<Loss>,
}

/// The numbers of a design that are others in its scenario at this scale, in the order of its links with their shares,
/// of its streams and of its best-effort streams.
pub fn losses(alloc: Global, scale: &Scale, design: &Design) -> Result<Vec<Loss>, AllocError> {
    let mut found = Ledger {
        alloc,
        design,
        list: Vec::new(alloc),
    };
    for link in &design.links {
        found.add_link(scale, link)?;
        for quota in &link.quotas {
            found.add_quota(scale, quota)?;
        }
    }
    for stream in &design.streams {
        found.add_stream(scale, stream)?;
    }
    for pour in &design.pours {
        found.add_pour(scale, pour)?;
    }
    Ok(found.list)
}

impl Ledger<'_> {
    /// Adds what the numbers of a link lose.
    fn add_link(&mut self, scale: &Scale, link: &DesignLink) -> Result<(), AllocError> {
        let row = link.row;
        self.add_rate(row, link.rate, kept_rate(scale, link.rate))?;
        self.add_size(row, "largest", link.largest, kept_size(scale, link.largest))?;
        let room = in_units(scale, scale.room(link.buffer));
        self.add_size(row, "buffer", link.buffer, Some(room))?;
        let latency = scale.propagation(link.latency).ok();
        self.add_time(row, "latency", link.latency, ticks_of(scale, latency))?;
        for level in &link.levels {
            let bound = scale.bound(*level).ok();
            self.add_time(row, "levels", *level, ticks_of(scale, bound))?;
        }
        Ok(())
    }

    /// Adds what the numbers of a share of a link lose.
    fn add_quota(&mut self, scale: &Scale, quota: &DesignQuota) -> Result<(), AllocError> {
        let room = in_units(scale, scale.room(quota.buffer));
        self.add_size(quota.row, "buffer", quota.buffer, Some(room))?;
        for level in &quota.levels {
            let bound = scale.bound(*level).ok();
            self.add_time(quota.row, "levels", *level, ticks_of(scale, bound))?;
        }
        Ok(())
    }

    /// Adds what the numbers of a best-effort stream lose.
    fn add_pour(&mut self, scale: &Scale, pour: &DesignPour) -> Result<(), AllocError> {
        let size = kept_size(scale, pour.size);
        self.add_size(pour.row, "size", pour.size, size)?;
        let gap = scale.gap(pour.pace).ok();
        self.add_time(pour.row, "every", pour.pace, ticks_of(scale, gap))
    }

    /// Adds what the numbers of a stream lose.
    fn add_stream(&mut self, scale: &Scale, stream: &DesignStream) -> Result<(), AllocError> {
        let row = stream.row;
        let size = stream.source.size;
        self.add_size(row, "size", size, kept_size(scale, size))?;
        self.add_gaps(scale, row, &stream.source)?;
        let delay = scale.delay(stream.within).ok();
        let kept = delay.map(|ticks| in_ticks(scale, ticks));
        self.add_time(row, "within", stream.within, kept)?;
        let Some(wanted) = stream.jitter else {
            return Ok(());
        };
        let jitter = scale.jitter(wanted).ok();
        let kept = jitter.map(|ticks| in_ticks(scale, ticks));
        self.add_time(row, "jitter", wanted, kept)
    }

    /// Adds what the gap and the window of a source lose.
    fn add_gaps(&mut self, scale: &Scale, row: usize, source: &Stream) -> Result<(), AllocError> {
        let key = self.key_of(row, "apart", "every");
        let apart = less(source.apart, source.jitter);
        let (gap, interval) = gaps_of(scale, source);
        self.add_time(row, key, apart, gap)?;
        if source.packets < 2 {
            return Ok(());
        }
        let window = less(source.window, source.jitter);
        self.add_time(row, "in", window, interval)
    }

    /// The first of two keys where something stands at it in a row, and else the second.
    fn key_of(&self, row: usize, first: &'static str, second: &'static str) -> &'static str {
        match self.design.rows.get(row) {
            Some(row) if row.has(first) => first,
            _ => second,
        }
    }

    /// Adds a rate that isn't kept.
    fn add_rate(&mut self, row: usize, exact: Rate, kept: Option<Rate>) -> Result<(), AllocError> {
        if kept == Some(exact) {
            return Ok(());
        }
        let text = format!(in self.alloc; "{exact}")?;
        let kept = match kept {
            Some(kept) => Some(format!(in self.alloc; "{}", kept.rounded())?),
            None => None,
        };
        self.add(row, "rate", text, kept)
    }

    /// Adds a size that isn't kept.
    fn add_size(
        &mut self,
        row: usize,
        key: &'static str,
        exact: Size,
        kept: Option<Size>,
    ) -> Result<(), AllocError> {
        if kept == Some(exact) {
            return Ok(());
        }
        let text = format!(in self.alloc; "{exact}")?;
        let kept = match kept {
            Some(kept) => Some(format!(in self.alloc; "{kept}")?),
            None => None,
        };
        self.add(row, key, text, kept)
    }

    /// Adds a time that isn't kept.
    fn add_time(
        &mut self,
        row: usize,
        key: &'static str,
        exact: Time,
        kept: Option<Time>,
    ) -> Result<(), AllocError> {
        if kept == Some(exact) {
            return Ok(());
        }
        let text = format!(in self.alloc; "{exact}")?;
        let kept = match kept {
            Some(kept) => Some(format!(in self.alloc; "{kept}")?),
            None => None,
        };
        self.add(row, key, text, kept)
    }

    /// Adds a loss at a key of a row.
    fn add(
        &mut self,
        row: usize,
        key: &'static str,
        exact: String,
        kept: Option<String>,
    ) -> Result<(), AllocError> {
        let Some(row) = self.design.rows.get(row) else {
            return Ok(());
        };
        let place = match row.field(key) {
            Some(field) => field.place,
            None => row.place,
        };
        let file = match self.design.files.get(place.file) {
            Some(file) => file.clone()?,
            None => String::new(self.alloc),
        };
        self.list.push(Loss {
            file,
            line: place.line,
            key,
            exact,
            kept,
        })?;
        Ok(())
    }
}

/// The gap and the interval of a source's contract, where it has one.
fn gaps_of(scale: &Scale, source: &Stream) -> (Option<Time>, Option<Time>) {
    match scale.contract(source) {
        Err(_) => (None, None),
        Ok(contract) => (
            Some(in_ticks(scale, u64::from(contract.xmin()))),
            Some(in_ticks(scale, u64::from(contract.interval()))),
        ),
    }
}

/// What is left of a time without a jitter.
fn less(time: Time, jitter: Time) -> Time {
    Time {
        picoseconds: time.picoseconds.saturating_sub(jitter.picoseconds),
    }
}

/// The time of so many ticks.
fn in_ticks(scale: &Scale, ticks: u64) -> Time {
    Time {
        picoseconds: ticks.saturating_mul(scale.tick().picoseconds),
    }
}

/// The time of so many ticks, where there are any.
fn ticks_of(scale: &Scale, ticks: Option<u32>) -> Option<Time> {
    ticks.map(|ticks| in_ticks(scale, u64::from(ticks)))
}

/// The size of so many units.
fn in_units(scale: &Scale, units: u32) -> Size {
    Size {
        bits: u64::from(units).saturating_mul(scale.unit().bits),
    }
}

/// The size that a scenario has for this one.
fn kept_size(scale: &Scale, size: Size) -> Option<Size> {
    let units = scale.size(size).ok()?;
    Some(in_units(scale, units))
}

/// The rate that a scenario has for this one, to a bit a second.
fn kept_rate(scale: &Scale, rate: Rate) -> Option<Rate> {
    let units = scale.rate(rate).ok()?;
    let bits = u128::from(in_units(scale, units).bits);
    let tick = u128::from(scale.tick().picoseconds);
    let a_second = bits.saturating_mul(SECOND).checked_div(tick)?;
    Some(Rate {
        bits_a_second: u64::try_from(a_second).unwrap_or(u64::MAX),
    })
}
