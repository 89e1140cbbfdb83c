//! The kinds of lines: the word that begins each, when it may stand, how it is judged, and how what it says is added.
ghost use Rattle.std.specs.Prelude.{◌≡◌, OnOk, OnErr, map};
ghost use Rattle.scenario_reader.specs.Causes.{AnswersWithRoom};
ghost use Rattle.scenario_reader.specs.Drafts.{has_quotas, with_item};
ghost use Rattle.scenario_reader.specs.Known.{FitsOne, names_said};
ghost use Rattle.scenario_reader.specs.line.Table.{may_stand, forms_of, says, is_before_callers, MayAdd, line_word};

use crate::cause::{LineCause, LineFault};
use crate::draft::Draft;
use crate::item::Item;
use crate::line::caller::{CALLER_FORM, MEMBER_FORM};
use crate::line::group::GROUP_FORM;
use crate::line::link::{BEST_FORM, PLAIN_FORM};
use crate::line::operation::close::CLOSE_FORM;
use crate::line::operation::moving::MOVE_FORM;
use crate::line::operation::pour::POUR_FORM;
use crate::line::operation::send::SEND_FORM;
use crate::line::quota::QUOTA_FORM;
use crate::line::request::{FOUND_JITTER_FORM, FOUND_RATE_FORM, JITTER_FORM, RATE_FORM};
use crate::line::rounds::{ROUNDS_FORM, TAIL_FORM, say_rounds};
use crate::line::schedule::{DO_FORM, SCHEDULE_FORM};
use call_script::{LinkEntry, Version};
use line_forms::{Keyword, Part, Values};
use net_units::OutOfMemory;
use std::alloc::Global;

impl Draft {
    // What the values of a line that begins with this word say.
    pub(crate) fn say(
        &self,
        alloc: Global,
        word: Keyword,
        version: Version,
        number: u64,
        values: &Values,
    ) -> Result<Item, LineFault>
        requires { FitsOne (names_said self.now) (forms_of version word) values.now }
        ensures { AnswersWithRoom result (says word version self.now number values.now) }
    {
        match word {
            Keyword::Link => self.say_link(alloc, version, values),
            Keyword::Group => self.say_group(values),
            Keyword::Quota => self.say_quota(values),
            Keyword::Caller => self.say_caller(version, values),
            Keyword::Open => self.say_open(alloc, version, values),
            Keyword::Send => self.say_send(values),
            Keyword::Close => self.say_close(values),
            Keyword::Pour => self.say_pour(values),
            Keyword::Move => self.say_move(values),
            Keyword::Rounds => say_rounds(values),
            Keyword::Tail => self.say_tail(values),
            Keyword::Schedule => Ok(Item::Schedule),
            Keyword::Do => self.say_do(number, values),
            _ => Err(LineFault::Refused(LineCause::Word)),
        }
    }

    pub(crate) fn may_stand(&self, version: Version, word: Keyword) -> bool
        ensures { result ≡ may_stand version self.now word }
    {
        match word {
            Keyword::Link => {
                self.groups.is_empty() && self.callers.is_empty() && self.rounds.is_none()
            }
            Keyword::Group => {
                version.has_groups() && self.is_before_callers() && !has_quotas(&self.links)
            }
            Keyword::Quota => version.has_groups() && self.is_before_callers(),
            Keyword::Caller | Keyword::Rounds => !self.links.is_empty() && self.rounds.is_none(),
            Keyword::Open | Keyword::Send | Keyword::Close => {
                !self.callers.is_empty() && self.rounds.is_none()
            }
            Keyword::Pour => {
                version.has_best_effort() && !self.callers.is_empty() && self.rounds.is_none()
            }
            Keyword::Move => {
                version.has_moves() && !self.callers.is_empty() && self.rounds.is_none()
            }
            Keyword::Tail => self.rounds.is_some() && self.tail.is_none(),
            Keyword::Schedule => self.tail.is_some() && !self.written,
            Keyword::Do => self.written,
            _ => false,
        }
    }

    // Whether a link was read, and no caller and no rounds.
    fn is_before_callers(&self) -> bool
        ensures { result ≡ is_before_callers self.now }
    {
        !self.links.is_empty() && self.callers.is_empty() && self.rounds.is_none()
    }

    /// Adds what a line that passed says. Where memory runs out, nothing changes.
    pub fn put(&mut self, alloc: Global, item: Item) -> Result<(), OutOfMemory>
        requires { MayAdd self.old item }
        ensures ok { OnOk result (self.new ≡ with_item item self.old) }
        ensures err { OnErr result (self.new ≡ self.old) }
    {
        match item {
            Item::Nothing => {}
            Item::Header(version) => self.put_header(version),
            Item::Link(entry) => self.put_link(entry)?,
            Item::Group(name) => self.put_group(name)?,
            Item::Quota { link, quota } => self.put_quota(link, quota)?,
            Item::Caller { name, group } => self.put_caller(alloc, &name, group)?,
            Item::Open(entry) => self.put_open(&entry)?,
            Item::Op(op) => self.put_op(&op)?,
            Item::Rounds(count) => self.put_rounds(count),
            Item::Tail(count) => self.put_tail(count),
            Item::Schedule => self.put_schedule(),
            Item::Do(what) => self.put_do(&what)?,
        }
        Ok(())
    }
}

// Whether a link of these has quotas.
fn has_quotas(links: &[LinkEntry]) -> bool
    ensures { result ≡ has_quotas links.now }
{
    links
        .iter()
        .any(|entry| !entry.quotas.as_slice().is_empty())
}

// The forms that a line may have in a version, by the word that begins it.
pub(crate) fn forms_of(version: Version, word: Keyword) -> &'static [&'static [Part]]
    ensures { map (λ form. form.now) result.now ≡ forms_of version word }
{
    match word {
        Keyword::Link if version.has_best_effort() => &[&PLAIN_FORM, &BEST_FORM],
        Keyword::Link => &[&PLAIN_FORM],
        Keyword::Group => &[&GROUP_FORM],
        Keyword::Quota => &[&QUOTA_FORM],
        Keyword::Caller if version.has_groups() => &[&CALLER_FORM, &MEMBER_FORM],
        Keyword::Caller => &[&CALLER_FORM],
        Keyword::Open if version.has_found_routes() => {
            &[
                &RATE_FORM,
                &JITTER_FORM,
                &FOUND_RATE_FORM,
                &FOUND_JITTER_FORM,
            ]
        }
        Keyword::Open => &[&RATE_FORM, &JITTER_FORM],
        Keyword::Send => &[&SEND_FORM],
        Keyword::Close => &[&CLOSE_FORM],
        Keyword::Pour => &[&POUR_FORM],
        Keyword::Move => &[&MOVE_FORM],
        Keyword::Rounds => &[&ROUNDS_FORM],
        Keyword::Tail => &[&TAIL_FORM],
        Keyword::Schedule => &[&SCHEDULE_FORM],
        Keyword::Do => &[&DO_FORM],
        _ => &[],
    }
}

// The words that begin the most lines are tried first.
pub(crate) fn line_word(field: &[u8]) -> Option<Keyword>
    ensures { result ≡ line_word field.now }
{
    if Keyword::Do.is(field) {
        Some(Keyword::Do)
    } else if Keyword::Send.is(field) {
        Some(Keyword::Send)
    } else if Keyword::Open.is(field) {
        Some(Keyword::Open)
    } else if Keyword::Close.is(field) {
        Some(Keyword::Close)
    } else if Keyword::Pour.is(field) {
        Some(Keyword::Pour)
    } else if Keyword::Move.is(field) {
        Some(Keyword::Move)
    } else if Keyword::Caller.is(field) {
        Some(Keyword::Caller)
    } else if Keyword::Link.is(field) {
        Some(Keyword::Link)
    } else if Keyword::Quota.is(field) {
        Some(Keyword::Quota)
    } else if Keyword::Group.is(field) {
        Some(Keyword::Group)
    } else if Keyword::Rounds.is(field) {
        Some(Keyword::Rounds)
    } else if Keyword::Tail.is(field) {
        Some(Keyword::Tail)
    } else if Keyword::Schedule.is(field) {
        Some(Keyword::Schedule)
    } else {
        None
    }
}
