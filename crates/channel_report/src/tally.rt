//! What a report tells of a run, kept while the run is made.
ghost use Rattle.std.specs.Prelude.{◌≡◌, ℕ, ◌+◌, ◌<◌, ◌^◌, ◌∷◌, ◌++◌, [], true, false, None, List, IfOk, OnOk, length, slice_index_or};
ghost use Rattle.net_units.specs.Numbers.{actor_number, link_number};
ghost use Rattle.net_units.specs.declared.numbers.LinkNo.{LinkNo as Link};
ghost use Rattle.link_steps.specs.Scan.{clock_of};
ghost use Rattle.run_record.specs.Hops.{AreHops};
ghost use Rattle.link_steps.specs.declared.replies.Reply.{Reply as Replied};
ghost use Rattle.run_record.specs.Rows.{IsEarly, offer_by, rows_by};
ghost use Rattle.run_record.specs.Runs.{part_of};
ghost use Rattle.run_record.specs.declared.done.Done.{Done as Step};
ghost use Rattle.channel_report.specs.KeptRows.{AreKeptIf};
ghost use Rattle.channel_report.specs.Links.{best_lost_by, best_sent_by, dropped_by, sent_by};
ghost use Rattle.channel_report.specs.Sources.{act_of};
ghost use Rattle.channel_report.specs.StepCounts.{AreStepCounts};
ghost use Rattle.channel_report.specs.declared.source_act.Act.TheVariants.{Nothing};
ghost use Rattle.channel_report.specs.Tallied.{IsLagging, IsTallied};
ghost use Rattle.channel_report.specs.TellsNothing.{TellsNothing};
ghost use Rattle.channel_report.specs.Tallies.{AreLinkTallies, HaveClock, HaveRested};
ghost use Rattle.channel_report.specs.declared.link_tally.LinkTally.{LinkTally as Counts};

use crate::channel_tally::ChannelTally;
use crate::counts::{keep_source, new_tallies};
use crate::flow::{Flow, new_flows, pair};
use crate::link_tally::LinkTally;
use call_script::Plan;
use link_steps::{Ask, Reply};
use net_units::{ActorNo, LinkNo, OutOfMemory};
use run_engine::{Watch, plane_of};
use run_record::{Done, HopRow, HopTable};
use std::alloc::Global;

// Every actor's number is below this.
const ACTORS: usize = 65;

/// What a report tells of a run, without its record: the counts of the links, what the sources have planned, the delays of the packets,
/// and the departures where there is to be a table of packets.
#[derive(Drop)]
pub struct Tally {
    pub(crate) alloc: Global,
    // Whether the rows are kept.
    pub(crate) packets: bool,
    // The counts of the links, by their numbers.
    pub(crate) links: Vec<LinkTally>,
    // What is kept of the sources of the requests' channels, by their numbers.
    pub(crate) channels: Vec<ChannelTally>,
    // How the packets of the requests' channels were delivered, by their numbers.
    pub(crate) flows: Vec<Flow>,
    // The hops of the channels.
    pub(crate) hops: HopTable,
    // The rows that are kept, in the order of time, with any hops.
    pub(crate) rows: Vec<HopRow>,
    // How many steps each actor has made, by its number.
    pub(crate) made: Vec<u64>,
    // How many steps there were.
    pub(crate) steps: usize,
}

impl Tally {
    /// The tally before any step of a run of this plan; with `packets` it keeps what the table of packets tells. An `Err` comes only
    /// for want of memory.
    pub fn new(alloc: Global, plan: &Plan, packets: bool) -> Result<Tally, OutOfMemory>
        ensures fresh { IfOk result (IsTallied plan.now []) }
        ensures packets { IfOk result (λ tally. tally.packets ≡ packets) }
    {
        Ok(Tally {
            alloc,
            packets,
            links: vec![in alloc; LinkTally::NOTHING; plan.links().len()]?,
            channels: new_tallies(alloc, plan.requests().len())?,
            flows: new_flows(alloc, plan)?,
            hops: HopTable::new(alloc),
            rows: Vec::new(alloc),
            made: vec![in alloc; 0; ACTORS]?,
            steps: 0,
        })
    }
}

// A tally sees a run by keeping what the report tells.
impl Watch for Tally {
    ghost saw = { λ tally parts run. IsTallied parts run tally };

    ghost lags = { λ tally parts past run. IsLagging parts past run tally };

    ghost has_table = { λ tally. tally.packets };

    fn see(&mut self, plan: &Plan, done: &Done) -> Result<(), OutOfMemory> {
        let clock = count_link(&mut self.links, done);
        keep_source(self.alloc, plan, &mut self.channels, clock, done)?;
        self.hops.note(done)?;
        pair(&mut self.flows, done.link, &done.reply)?;
        keep_row(
            &mut self.rows,
            &self.hops,
            self.packets,
            done.link,
            &done.reply,
        )?;
        count_step(&mut self.made, done.actor);
        self.steps += 1;
        Ok(())
    }

    #[inline(always)]
    fn see_plane(
        &mut self,
        plan: &Plan,
        link: LinkNo,
        ask: &Ask,
        reply: &Reply,
    ) -> Result<(), OutOfMemory> {
        let actor = plane_of(plan);
        if tells_nothing(ask, reply) {
            count_step(&mut self.made, actor);
            self.steps += 1;
            return Ok(());
        }
        // The plane's asks are all such, and they cost no entry.
        if is_for_no_source(ask) {
            self.links[usize::from(link.get())].add(ask, reply);
            pair(&mut self.flows, link, reply)?;
            keep_row(&mut self.rows, &self.hops, self.packets, link, reply)?;
            count_step(&mut self.made, actor);
            self.steps += 1;
            return Ok(());
        }
        let done = Done {
            actor,
            link,
            ask: *ask,
            reply: *reply,
        };
        self.see(plan, &done)?;
        Ok(())
    }

    #[inline(always)]
    fn passed(&mut self, plan: &Plan, link: LinkNo, _clock: u64) -> Result<(), OutOfMemory> {
        let actor = plane_of(plan);
        self.links[usize::from(link.get())].pass();
        count_step(&mut self.made, actor);
        self.steps += 1;
        Ok(())
    }

    fn rested(&mut self, plan: &Plan, _first: u64, rounds: u64) -> Result<(), OutOfMemory> {
        let steps = rounds * plan.links().len() as u64;
        rest_links(&mut self.links, rounds);
        self.made[plan.callers().len()] += steps;
        self.steps += steps as usize;
        Ok(())
    }

    fn may_lag(&self) -> bool {
        true
    }

    #[inline(always)]
    fn see_told(&mut self, _plan: &Plan, link: LinkNo, reply: &Reply) -> Result<(), OutOfMemory> {
        self.links[usize::from(link.get())].tell(reply);
        pair(&mut self.flows, link, reply)?;
        keep_row(&mut self.rows, &self.hops, self.packets, link, reply)?;
        Ok(())
    }

    fn catch_up(&mut self, plan: &Plan, clock: u64, steps: u64) {
        set_clocks(&mut self.links, clock);
        self.made[plan.callers().len()] += steps;
        self.steps += steps as usize;
    }

    fn steps_of(&self, actor: ActorNo) -> u64 {
        steps_at(self.made.as_slice(), actor)
    }
}

// Whether a step with this ask and reply tells nothing but that it was made: a packet arrives.
fn tells_nothing(ask: &Ask, reply: &Reply) -> bool
    ensures { result ≡ true → TellsNothing ask.now reply.now }
{
    match ask {
        Ask::Arrive { .. } => is_of_arrival(reply),
        _ => false,
    }
}

// Whether this may be the reply to an arrival.
fn is_of_arrival(reply: &Reply) -> bool
    ensures sent { result ≡ true → sent_by reply.now ≡ 0 }
    ensures dropped { result ≡ true → dropped_by reply.now ≡ 0 }
    ensures best_sent { result ≡ true → best_sent_by reply.now ≡ 0 }
    ensures best_lost { result ≡ true → best_lost_by reply.now ≡ 0 }
    ensures rows { result ≡ true → (run : List Step) (link : Link) → rows_by run link reply.now ≡ [] }
{
    matches!(reply, Reply::Taken { .. } | Reply::Refused(_))
}

// Whether a step that asks this is for no source and gets no offer, whatever the reply.
fn is_for_no_source(ask: &Ask) -> bool
    ensures sources { result ≡ true → (reply : Replied) → act_of ask.now reply ≡ Nothing }
    ensures offers { result ≡ true → (reply : Replied) → offer_by ask.now reply ≡ None }
{
    matches!(ask, Ask::Arrive { .. } | Ask::Tick)
}

// Counts this many quiet ticks of each link.
fn rest_links(links: &mut [LinkTally], ticks: u64)
    requires { (k : ℕ) (d : Counts) → k < length links.old → (slice_index_or links.old k d).clock + ticks < 2 ^ 62 }
    ensures { HaveRested ticks links.old links.new }
{
    for link in links.iter_mut() {
        link.clock += ticks;
    }
}

// Each link's clock is this.
fn set_clocks(links: &mut [LinkTally], clock: u64)
    ensures { HaveClock clock links.old links.new }
{
    for link in links.iter_mut() {
        link.clock = clock;
    }
}

// Counts an entry of a link, and answers the link's clock before it.
fn count_link(links: &mut Vec<LinkTally>, done: &Done) -> u64
    requires inside { link_number done.now.link < length links.old.items }
    requires short { (past : List Step) × (AreLinkTallies (length links.old.items) past links.old.items × (length past < 2 ^ 60)) }
    ensures clock { (past : List Step) → AreLinkTallies (length links.old.items) past links.old.items → result ≡ clock_of (part_of (link_number done.now.link) past) }
    ensures counted { (past : List Step) → AreLinkTallies (length links.old.items) past links.old.items → AreLinkTallies (length links.old.items) (done.now ∷ past) links.new.items }
{
    let place = usize::from(done.link.get());
    let clock = links[place].clock;
    links[place].add(&done.ask, &done.reply);
    clock
}

// Keeps the row that an entry with this link and reply tells, if it tells one and rows are kept. Its offer is noted.
fn keep_row(
    rows: &mut Vec<HopRow>,
    hops: &HopTable,
    packets: bool,
    link: LinkNo,
    reply: &Reply,
) -> Result<(), OutOfMemory>
    requires { IsEarly reply.now }
    ensures { OnOk result ((past : List Step) (done : Step) → done.link ≡ link → done.reply ≡ reply.now → AreHops (past ++ done ∷ []) hops.now.channels.items → AreKeptIf packets past rows.old.items → AreKeptIf packets (past ++ done ∷ []) rows.new.items) }
{
    if !packets {
        return Ok(());
    }
    match hops.row_at(link, reply) {
        Some(row) => {
            rows.push(row)?;
            Ok(())
        }
        None => Ok(()),
    }
}

// How many steps the actor has made, by these counts.
fn steps_at(made: &[u64], actor: ActorNo) -> u64
    ensures { (d : ℕ) → actor_number actor < length made.now → result ≡ slice_index_or made.now (actor_number actor) d }
{
    match made.get(usize::from(actor.get())) {
        Some(steps) => *steps,
        None => 0,
    }
}

// Counts a step of an actor.
fn count_step(made: &mut Vec<u64>, actor: ActorNo)
    requires { (past : List Step) × (AreStepCounts past made.old.items × (length past < 2 ^ 60)) }
    ensures { (past : List Step) (done : Step) → AreStepCounts past made.old.items → actor_number done.actor ≡ actor_number actor → AreStepCounts (done ∷ past) made.new.items }
{
    let place = usize::from(actor.get());
    made[place] += 1;
}
