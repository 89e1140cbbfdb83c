//! Laws of every run, each as the contract of a function that does nothing.
ghost use Rattle.run_engine.specs.runs.Laws.{EveryPartIsLegal, EveryAskFits, ClocksFollowThePlane, HeldRowsPassOnEveryLink, EveryHopIsGuaranteed, NoFlightIsLate, EveryAskIsAnswered, EveryReplyIsExpected, VerdictsFollowTheReplies, RunsFollowTheirActors, FittingPartsMakeARun};
ghost use Rattle.interleave_core.specs.channels.Laws.{EveryChannelIsAskedOnce, AcceptedRequestsAreKept, AcceptedChannelsKeepTheirDelays, EveryRunIsGuaranteed, EveryRunOfAPlanIsGuaranteed};
ghost use Rattle.run_engine.specs.schedules.Quiet.{QuietRoundsGoOn};
ghost use Rattle.run_engine.specs.channels.Moves.{EveryMoveKeeps, PlannedPacketsAreOfferedLeftOrCancelled, AMoveLeavesNoPacketBehind, EveryMoveTakesTheLast};
ghost use Rattle.interleave_core.specs.channels.Shifting.{EveryMovePlansTheShifted, EveryMoveGivesTheShifted, EveryPlannedPacketIsCounted};
ghost use Rattle.run_engine.specs.schedules.Schedules.{SchedulesComeToOneEnd};
ghost use Rattle.run_engine.specs.runs.Turns.{StepsComeToAnEnd};
ghost use Rattle.interleave_core.specs.channels.Sent.{TicksReportWhatHasLeft};
ghost use Rattle.run_engine.specs.runs.Weave.{JournalsWeaveToARun};

/// The part of every run on each link is a legal history of that link. So every law of legal and admissible histories holds
/// of it.
pub fn every_part_is_legal()
    ensures { EveryPartIsLegal }
{}

/// Each ask of a run meets the conditions on an ask at its link.
pub fn every_ask_fits()
    ensures { EveryAskFits }
{}

/// The clock of a link is the plane's round while the link hasn't made the round's tick, and one more afterwards.
pub fn clocks_follow_the_plane()
    ensures { ClocksFollowThePlane }
{}

/// After every entry of a run the rows that each link holds pass its admission test: in the middle of a setup or of a round
/// too, and on a split link too.
pub fn held_rows_pass_on_every_link()
    ensures { HeldRowsPassOnEveryLink }
{}

/// The part of every run on each link has the hop guarantee: what has departed did so later than its eligible tick and within the
/// bound of its level, and a packet whose bound the clock has reached has departed.
pub fn every_hop_is_guaranteed()
    ensures { EveryHopIsGuaranteed }
{}

/// Each packet on its way between two links is due in the plane's round or in a later one, and none is due while the links
/// make their ticks. Each left its link later than its eligible tick and within the bound of its level, and keeps its
/// number and its size.
pub fn no_flight_is_late()
    ensures { NoFlightIsLate }
{}

/// Where each channel has one owner, each ask of a run gets one of its replies. So no reserve finds a reservation of its channel, no
/// relax, deny or release is refused, and packets are refused only while planned ones are left or because they are too large. That
/// arrivals are taken is said by `every_run_is_guaranteed`.
pub fn every_ask_is_answered()
    ensures { EveryAskIsAnswered }
{}

/// Where each channel has one owner, each reply to a caller is one that its script expects; and each reply to the plane is one
/// that the plane expects.
pub fn every_reply_is_expected()
    ensures { EveryReplyIsExpected }
{}

/// What a request has come to, as its caller knows it, is the verdict over the replies of the run to the reserves, relaxes and
/// denies of its channel, and nothing while that verdict is open.
pub fn verdicts_follow_the_replies()
    ensures { VerdictsFollowTheReplies }
{}

/// Where a channel has one owner, each reserve of it in a run names its contract, its control, its place in the route and the link
/// after it; no link offers to it twice, and only links of its route do. So in every run the laws of a channel that a link offers
/// to at most once hold at each hop: its packets are those of one row, they leave in their order, and a source that keeps its
/// contract is served.
pub fn every_channel_is_asked_once()
    ensures { EveryChannelIsAskedOnce }
{}

/// Where the caller of a request knows it accepted, the delay that it knows is the sum of the level bounds and propagations of its
/// route, and is within what it asks for. The bound at its last hop is within the jitter that it asks for, if it asks for one.
pub fn accepted_requests_are_kept()
    ensures { AcceptedRequestsAreKept }
{}

/// Where the caller of a request knows it accepted, each packet of its channel is eligible at every hop no later than at the first
/// hop plus the level bounds and propagations of the hops before, and under delay-jitter control exactly that much later. A packet
/// that has left a hop did so within that and the hop's own bound. This holds in every run, whatever other callers ask.
pub fn accepted_channels_keep_their_delays()
    ensures { AcceptedChannelsKeepTheirDelays }
{}

/// The whole guarantee. Where each channel has one owner, all of this holds at the beginning of every run and after each of its
/// entries, in the middle of a setup or of a round too:
///
/// - On each link the held rows pass the admission test, what has departed did so within the bound of its level, and a packet whose
///   bound the clock has reached has departed.
/// - No source packet was dropped on a row whose source keeps its contract, and past the first hop each packet that arrives is taken,
///   never refused as stray or full.
/// - Only accepted channels have packets, and only at the hops of their routes. (Best-effort packets belong to no channel.)
/// - The packets of an accepted channel that a hop has taken are numbered from 1, in their order.
/// - Each packet of an accepted channel is eligible at every hop, and has left it, within the level bounds and propagations so far,
///   counted from its eligible tick at the first hop. Once the hop's clock has reached that bound, it has departed. The sum over the
///   route is within the delay that was asked for. Where the source keeps its contract, that eligible tick is the tick of its
///   arrival.
/// - Under delay-jitter control the delays of two packets of such a source differ by less than the bound of the last hop, which is
///   within the jitter that was asked for.
///
/// Nothing is said of the jitter of other channels or of best-effort packets, nor that a run goes on. (Banerjea, Ferrari et al. 1996
/// for the rules; that they hold over every order of the steps is ours.)
pub fn every_run_is_guaranteed()
    ensures { EveryRunIsGuaranteed }
{}

/// So every run of a plan has the whole guarantee, whoever made it: the links of a plan fit its requests, and each of its channels has one
/// owner.
pub fn every_run_of_a_plan_is_guaranteed()
    ensures { EveryRunOfAPlanIsGuaranteed }
{}

/// Each packet that a tick of a run tells as sent has left its link: the link's history has its start, which ended by the
/// link's clock, and what the tick tells are this packet's departure, its next link, and when it is due there.
pub fn ticks_report_what_has_left()
    ensures { TicksReportWhatHasLeft }
{}

/// A run goes on with the next step of any actor, every list of actors gives a run, and each run is that of the list of its
/// actors.
pub fn runs_follow_their_actors()
    ensures { RunsFollowTheirActors }
{}

/// A list of entries on links of the network is a run where its part on each link is a legal history of that link, and each
/// actor's entries are what it asks next after its own replies. So any order of the steps that keeps the order on each
/// link and of each actor is one of a run.
pub fn fitting_parts_make_a_run()
    ensures { FittingPartsMakeARun }
{}

/// The merge of the links' journals by stamp is a run where each journal is a legal history of its link, stamps rise in each and
/// none stands twice, and each actor's own entries, in order of stamp, are what it asks next. The merge is in order of stamp
/// and has what stands in the journals and nothing else, and its part on each link is that link's journal. An actor whose own
/// entries leave it no ask has no step left in the run.
pub fn journals_weave_to_a_run()
    ensures { JournalsWeaveToARun }
{}

/// An actor's steps come to an end. One that has a step left makes one, and with it the greatest number of steps that it may have
/// left falls, whatever the links reply. The steps of other actors don't change that number.
pub fn steps_come_to_an_end()
    ensures { StepsComeToAnEnd }
{}

/// A schedule either comes to a run or asks too much at a line: exactly one of these, with no second run and no second line. What it
/// comes to is a run of the network.
pub fn schedules_come_to_one_end()
    ensures { SchedulesComeToOneEnd }
{}

/// Once a move has left a channel, the packets that the channel's first hop has taken are those with the numbers from 1 up to the
/// count that the move has told was kept, and it takes no more.
pub fn every_move_keeps_what_was_taken()
    ensures { EveryMoveKeeps }
{}

/// Every packet that was planned on a channel at a link was offered by its source there, is left, or was cancelled.
pub fn planned_packets_are_offered_left_or_cancelled()
    ensures { PlannedPacketsAreOfferedLeftOrCancelled }
{}

/// Each step of a move is one of three. First the first hop of the channel that is left is released. Where that has cancelled some
/// packets, one submit asks the first hop of the other channel for as many, with the gap and the size of the last that were planned
/// on the channel that is left; it is planned, and then the plan there has exactly these packets. Then the further hops of the
/// channel that is left are released, each with the count of packets that its first hop has taken.
pub fn every_move_plans_what_was_shifted()
    ensures { EveryMovePlansTheShifted }
{}

/// Once a move has left a channel, the packets that the move has told were shifted are as many as the first hop has cancelled, and
/// as many as steps of a move from the channel have had planned on another one. So a submit was made exactly where there are some.
pub fn every_move_gives_what_was_shifted()
    ensures { EveryMoveGivesTheShifted }
{}

/// While no move from a channel is under way, the packets that its submits have planned at its first hop are those that its source
/// has offered there, dropped ones included, those that are left, those that were cancelled without a move, and those that a move
/// has given to another channel.
pub fn every_planned_packet_is_counted()
    ensures { EveryPlannedPacketIsCounted }
{}

/// Once a move has left a channel, the packets that its source has offered at its first hop, dropped ones included, and those that
/// the move has told were shifted are all that its submits planned there.
pub fn a_move_leaves_no_packet_behind()
    ensures { AMoveLeavesNoPacketBehind }
{}

/// Where each channel has one owner, the packets of a move have the gap and the size of the last submit on the channel that it
/// leaves, of those that the run has answered as planned; where it has answered none as planned, they are 1 and 1.
pub fn every_move_takes_the_last_packets()
    ensures { EveryMoveTakesTheLast }
{}

/// Where no packet reaches a link in the next rounds of a run, and no link has anything due in them, the run goes on by as many quiet
/// rounds, which are turns of the plane. They change the clocks alone: the plane stands as many rounds later, each link has made
/// as many quiet ticks, and the callers stand where they stood.
pub fn quiet_rounds_go_on()
    ensures { QuietRoundsGoOn }
{}
