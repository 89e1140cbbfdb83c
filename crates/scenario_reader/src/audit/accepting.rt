//! Judging the lines of a report that tell the levels of a request.
ghost use Rattle.std.specs.Prelude.{◌≡◌, ◌<◌, IfSome, Some, drop, length, option_map, is_some};
ghost use Rattle.std.specs.List.{slice_get};
ghost use Rattle.net_units.specs.Allotted.{levels_of};
ghost use Rattle.net_units.specs.Numbers.{channel_number};
ghost use Rattle.setup_protocol.specs.State.{HaveLevels};
ghost use Rattle.scenario_reader.specs.AuditKept.{KeepsTold, told_of};
ghost use Rattle.scenario_reader.specs.AuditLines.{acceptance_in, are_level_fields, are_within, channel_in, has_accept_words, is_untold, levels_told, request_in};
ghost use Rattle.scenario_reader.specs.declared.audit.place.Section.TheVariants as place;

use crate::audit::draft::AuditDraft;
use crate::draft::Draft;
use crate::values::{name, number};
use call_script::RequestEntry;
use hop_reservation::{Itinerary, Route};
use line_forms::{Fields, Keyword};
use net_units::limits::MOST_DELAY;
use net_units::{ChanNo, Level, Levels};
use relaxation::allot;
use setup_protocol::Request;

// What a line tells: the number of a request, and the levels with which it was accepted.
#[derive(Clone, Copy)]
pub(crate) struct Acceptance {
    pub(crate) request: usize,
    pub(crate) levels: Levels,
}

impl AuditDraft {
    // What the line tells after those above, where it is right.
    pub(crate) fn acceptance(&self, fields: &Fields) -> Option<Acceptance>
        requires { self.now.place ≡ place.Report }
        ensures told { option_map told_of result ≡ acceptance_in self.now.said.requests self.now.levels fields.now }
        ensures within { IfSome result (λ told. told.request < length self.now.levels) }
        ensures keeps { IfSome result (λ told. KeepsTold self.now.said.requests (told_of told)) }
    {
        let entry = self.draft.request_in(fields.at(1))?;
        let request = entry.request.chan.get() as usize;
        if !self.is_untold(request) || !has_accept_words(fields) {
            return None;
        }
        let levels = levels_told(&entry.request.route, fields)?;
        let sum = number(fields.at(3), 0, MOST_DELAY).ok()?;
        if are_within(&entry.request, &levels, sum) {
            Some(Acceptance { request, levels })
        } else {
            None
        }
    }

    // Whether no line has accepted the request of this number.
    fn is_untold(&self, request: usize) -> bool
        ensures { result ≡ is_untold self.now.levels request }
    {
        match self.levels.get(request) {
            Some(Some(_)) => false,
            _ => true,
        }
    }
}

impl Draft {
    // The request whose name a field is.
    pub(crate) fn request_in(&self, field: &[u8]) -> Option<RequestEntry>
        ensures named { result ≡ request_in self.now.requests field.now }
        ensures there { IfSome result (λ entry. slice_get self.now.requests (channel_number entry.request.chan) ≡ Some entry) }
    {
        let _valid = &self.requests;
        let name = name(field).ok()?;
        self.request_named(&name)
    }

    // How many requests were opened.
    pub(crate) fn request_count(&self) -> usize
        ensures { result ≡ length self.now.requests }
    {
        self.requests.len()
    }

    // The channel of the request whose name a field is.
    pub(crate) fn channel_in(&self, field: &[u8]) -> Option<ChanNo>
        ensures { result ≡ channel_in self.now.requests field.now }
    {
        let name = name(field).ok()?;
        let number = self.request_names.number_of(&name)?;
        Some(self.requests[number].request.chan)
    }
}

// Whether the line has its fixed words after the first.
fn has_accept_words(fields: &Fields) -> bool
    ensures { result ≡ has_accept_words fields.now }
{
    Keyword::Delay.is(fields.at(2)) && Keyword::Levels.is(fields.at(4))
}

// The levels that the line tells, where they are levels of the links, one for each hop.
fn levels_told(route: &Route, fields: &Fields) -> Option<Levels>
    ensures there { is_some result ≡ are_level_fields route.now (drop 5 fields.now) }
    ensures value { IfSome result (λ levels. levels_of levels ≡ levels_told fields.now) }
    ensures have { IfSome result (λ levels. HaveLevels route.now (levels_of levels)) }
{
    let mut levels = Levels::new();
    for index in 0..route.len() {
        let most = route.hop(index + 1).bounds.len();
        let told = number(fields.at(5 + usize::from(index)), 1, u64::from(most)).ok()?;
        levels.push(Level::new(told as u8)?);
    }
    if fields.count() == 5 + usize::from(route.len()) {
        Some(levels)
    } else {
        None
    }
}

// Whether the levels have this sum, and the destination denies nothing.
fn are_within(request: &Request, levels: &Levels, sum: u64) -> bool
    requires { HaveLevels request.now.route (levels_of levels.now) }
    ensures { result ≡ are_within request.now (levels_of levels.now) sum }
{
    let it = offers_of(&request.route, levels);
    // `allot` tells whether the destination denies these levels; what it would allot isn't asked for.
    let mut unused = Levels::new();
    sum == it.delay_sum()
        && allot(&it, request.delay, request.control.jitter(), &mut unused).is_ok()
}

// The route with these levels as what its hops have offered.
fn offers_of(route: &Route, levels: &Levels) -> Itinerary
    requires { HaveLevels route.now (levels_of levels.now) }
    ensures route { result.route ≡ route.now }
    ensures levels { result.levels ≡ levels_of levels.now }
{
    let mut it = Itinerary::new(*route);
    for index in 0..levels.len() {
        let level = levels.at(index + 1);
        it.push_offer(level, level);
    }
    it
}
