//! The line of a request that is opened: its forms, what it says, and adding the request.
ghost use Rattle.std.specs.Prelude.{◌≡◌, ◌<◌, length, OnOk, OnErr, ◌++◌, ◌∷◌, [], vec_len, vec_capacity};
ghost use Rattle.net_units.specs.Numbers.{actor_at, channel_at};
ghost use Rattle.scenario_reader.specs.Causes.{AnswersWithRoom};
ghost use Rattle.scenario_reader.specs.Drafts.{last_caller, with_item};
ghost use Rattle.scenario_reader.specs.Known.{FitsOne, names_said};
ghost use Rattle.scenario_reader.specs.line.Request.{AreTermsSmall, open_forms, open_says, is_found, term, contract_said, control_said};
ghost use Rattle.scenario_reader.specs.line.Table.{MayAdd};
ghost use Rattle.scenario_reader.specs.declared.item.Item.TheVariants as item;

pub(crate) mod hops;
pub(crate) mod nodes;
pub(crate) mod text;
pub mod way;

use crate::cause::{LineCause, LineFault};
use crate::draft::Draft;
use crate::item::Item;
use crate::line::operation::add_op;
use crate::uses::blank;
use crate::values::require;
use call_script::{Op, RequestEntry, Version};
use line_forms::{Keyword, Part, Set, Slot, Values};
use net_units::limits::{MOST_DELAY, MOST_GAP, MOST_INTERVAL, MOST_REQUESTS, MOST_SIZE};
use net_units::{ActorNo, ChanNo, OutOfMemory};
use setup_protocol::{Control, Request};
use std::alloc::Global;
use traffic_contract::Contract;

/// open NAME route LINK1 .. LINKh contract XMIN XAVE I SMAX delay D rate
pub(crate) const RATE_FORM: [Part; 12] = [
    Part::Word(Keyword::Open),
    Part::One(Slot::New(Set::Requests)),
    Part::Word(Keyword::Route),
    Part::Route(Set::Links),
    Part::Word(Keyword::Contract),
    Part::One(Slot::Number {
        low: 1,
        high: MOST_GAP as u64,
    }),
    Part::One(Slot::Number {
        low: 1,
        high: MOST_GAP as u64,
    }),
    Part::One(Slot::Number {
        low: 1,
        high: MOST_INTERVAL as u64,
    }),
    Part::One(Slot::Number {
        low: 1,
        high: MOST_SIZE as u64,
    }),
    Part::Word(Keyword::Delay),
    Part::One(Slot::Number {
        low: 1,
        high: MOST_DELAY,
    }),
    Part::Word(Keyword::Rate),
];

/// open NAME route LINK1 .. LINKh contract XMIN XAVE I SMAX delay D jitter J
pub(crate) const JITTER_FORM: [Part; 13] = [
    Part::Word(Keyword::Open),
    Part::One(Slot::New(Set::Requests)),
    Part::Word(Keyword::Route),
    Part::Route(Set::Links),
    Part::Word(Keyword::Contract),
    Part::One(Slot::Number {
        low: 1,
        high: MOST_GAP as u64,
    }),
    Part::One(Slot::Number {
        low: 1,
        high: MOST_GAP as u64,
    }),
    Part::One(Slot::Number {
        low: 1,
        high: MOST_INTERVAL as u64,
    }),
    Part::One(Slot::Number {
        low: 1,
        high: MOST_SIZE as u64,
    }),
    Part::Word(Keyword::Delay),
    Part::One(Slot::Number {
        low: 1,
        high: MOST_DELAY,
    }),
    Part::Word(Keyword::Jitter),
    Part::One(Slot::Number {
        low: 1,
        high: MOST_DELAY,
    }),
];

/// open NAME from NODE1 to NODE2 contract XMIN XAVE I SMAX delay D rate
pub(crate) const FOUND_RATE_FORM: [Part; 14] = [
    Part::Word(Keyword::Open),
    Part::One(Slot::New(Set::Requests)),
    Part::Word(Keyword::From),
    Part::One(Slot::Known(Set::Nodes)),
    Part::Word(Keyword::To),
    Part::One(Slot::Known(Set::Nodes)),
    Part::Word(Keyword::Contract),
    Part::One(Slot::Number {
        low: 1,
        high: MOST_GAP as u64,
    }),
    Part::One(Slot::Number {
        low: 1,
        high: MOST_GAP as u64,
    }),
    Part::One(Slot::Number {
        low: 1,
        high: MOST_INTERVAL as u64,
    }),
    Part::One(Slot::Number {
        low: 1,
        high: MOST_SIZE as u64,
    }),
    Part::Word(Keyword::Delay),
    Part::One(Slot::Number {
        low: 1,
        high: MOST_DELAY,
    }),
    Part::Word(Keyword::Rate),
];

/// open NAME from NODE1 to NODE2 contract XMIN XAVE I SMAX delay D jitter J
pub(crate) const FOUND_JITTER_FORM: [Part; 15] = [
    Part::Word(Keyword::Open),
    Part::One(Slot::New(Set::Requests)),
    Part::Word(Keyword::From),
    Part::One(Slot::Known(Set::Nodes)),
    Part::Word(Keyword::To),
    Part::One(Slot::Known(Set::Nodes)),
    Part::Word(Keyword::Contract),
    Part::One(Slot::Number {
        low: 1,
        high: MOST_GAP as u64,
    }),
    Part::One(Slot::Number {
        low: 1,
        high: MOST_GAP as u64,
    }),
    Part::One(Slot::Number {
        low: 1,
        high: MOST_INTERVAL as u64,
    }),
    Part::One(Slot::Number {
        low: 1,
        high: MOST_SIZE as u64,
    }),
    Part::Word(Keyword::Delay),
    Part::One(Slot::Number {
        low: 1,
        high: MOST_DELAY,
    }),
    Part::Word(Keyword::Jitter),
    Part::One(Slot::Number {
        low: 1,
        high: MOST_DELAY,
    }),
];

impl Draft {
    // The request that the values of a line say.
    pub(crate) fn say_open(
        &self,
        alloc: Global,
        _version: Version,
        values: &Values,
    ) -> Result<Item, LineFault>
        requires { FitsOne (names_said self.now) (open_forms _version) values.now }
        ensures { AnswersWithRoom result (open_says self.now values.now) }
    {
        require(self.requests.len() < MOST_REQUESTS, LineCause::Many)?;
        let contract = contract_said(values).ok_or(LineCause::Contract)?;
        let routed = self.route_said(alloc, values)?;
        let name = values.ones.name(0).ok_or(LineCause::Shape)?;
        Ok(Item::Open(RequestEntry {
            name,
            caller: self.last_caller(),
            request: Request {
                chan: self.next_channel(),
                route: routed.route,
                contract,
                control: control_said(values),
                delay: term(values, 4),
            },
            found: routed.found,
        }))
    }

    // The last caller.
    fn last_caller(&self) -> ActorNo
        ensures { result ≡ actor_at (last_caller self.now) }
    {
        ActorNo::new(self.callers.len().saturating_sub(1) as u8).unwrap()
    }

    // The channel of the next request.
    fn next_channel(&self) -> ChanNo
        ensures { result ≡ channel_at (length self.now.requests) }
    {
        ChanNo::new(self.requests.len() as u32).unwrap()
    }

    pub(crate) fn put_open(&mut self, entry: &RequestEntry) -> Result<(), OutOfMemory>
        requires { MayAdd self.old (item.Open entry.now) }
        ensures ok { OnOk result (self.new ≡ with_item (item.Open entry.now) self.old) }
        ensures err { OnErr result (self.new ≡ self.old) }
    {
        self.requests.reserve(1)?;
        self.uses.reserve(1)?;
        add_op(&mut self.callers, Op::Open(entry.request.chan))?;
        push_reserved(&mut self.requests, entry);
        self.uses.push_reserved(blank());
        self.request_names.add(entry.name);
        Ok(())
    }
}

// Whether the route is to be found: the line has no links.
fn is_found(values: &Values) -> bool
    ensures { result ≡ is_found values.now }
{
    values.run.as_slice().is_empty()
}

// The number that stands so many places after the first of the contract. It stands after the name, or after the two nodes of a route
// that is to be found.
fn term(values: &Values, place: usize) -> u64
    requires { place < 6 }
    ensures { result ≡ term values.now place }
{
    let first = if is_found(values) { 3 } else { 1 };
    values.ones.number(first + place)
}

// The contract that the four numbers are, None where they aren't one.
fn contract_said(values: &Values) -> Option<Contract>
    requires { AreTermsSmall values.now }
    ensures { result ≡ contract_said values.now }
{
    let (xmin, xave) = (term(values, 0), term(values, 1));
    let (interval, smax) = (term(values, 2), term(values, 3));
    Contract::new(xmin as u32, xave as u32, interval as u32, smax as u32).ok()
}

// Delay-jitter control with its bound, where the line has one, or else rate-jitter control.
fn control_said(values: &Values) -> Control
    ensures { result ≡ control_said values.now }
{
    match term(values, 5) {
        0 => Control::Rate,
        bound => Control::Jitter(bound),
    }
}

// Adds an item at the end, where there is room. (At a type with an option of names in it, `push_reserved` is proved in a function
// over any type, and not where it is called.)
fn push_reserved<T: Copy>(items: &mut Vec<T>, item: &T)
    requires { vec_len items.old < vec_capacity items.old }
    ensures { items.new.items ≡ items.old.items ++ item.now ∷ [] }
{
    items.push_reserved(*item);
}
