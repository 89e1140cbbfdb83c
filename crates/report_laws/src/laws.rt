//! The laws.
ghost use Rattle.report_laws.specs.Offered.{ReportsShowWhatSourcesOffer};
ghost use Rattle.report_laws.specs.Rows.{RowsShowDepartures};
ghost use Rattle.report_laws.specs.Bounds.{ReportsKeepTheirBounds};
ghost use Rattle.report_laws.specs.RowDelays.{ReportsTellTheDelaysOfRows};
ghost use Rattle.report_laws.specs.Delivered.{EveryDepartureHasOneRow, ReportsShowEveryDelay};
ghost use Rattle.report_laws.specs.Counts.{ReportsShowWhatLinksDid, ReportsShowRefusedSends, ReportsShowTheSteps};

/// Where a link offers to a channel at most once, the ticks that the report takes for those at which the channel's source has offered
/// a packet are those that the link keeps of the channel's row, whether it is held or gone. So the report's *offered* and *keeps* are
/// what the whole guarantee means by these words.
pub fn reports_show_what_sources_offer()
    ensures { ReportsShowWhatSourcesOffer }
{}

/// Each row of an accepted channel is of a packet of the channel that has left a hop of its route: the row tells the hop's place in the
/// route and its link, the packet's number and size, and the ticks at which it arrived there, was eligible and departed.
pub fn rows_show_departures()
    ensures { RowsShowDepartures }
{}

/// Each packet of an accepted channel that has left a hop of its route has one row there, and no more.
pub fn every_departure_has_one_row()
    ensures { EveryDepartureHasOneRow }
{}

/// The delays of an accepted channel that the report counts are those of the packets that have departed from its last hop. There are
/// as many delays as such packets, the delay of each is among them, and each is the delay of one. Its least and its worst are the
/// least and the greatest of them.
pub fn reports_show_every_delay()
    ensures { ReportsShowEveryDelay }
{}

/// The delays of a channel that the report counts, by the numbers of packets as they depart, are those that the rows of the run's table tell
/// in their order: where a packet has departed from its last hop, the nearest row of a first hop, at its own row or before it, is its own.
pub fn reports_tell_the_delays_of_rows()
    ensures { ReportsTellTheDelaysOfRows }
{}

/// A link's *sent* is the number of packets of channels that have left it, and *full* that of source packets that its rows, held or
/// gone, have dropped. Its *best* is the number of best-effort packets that have left it, *lost* that of those whose tick was made and
/// which it hasn't taken, and *refused* that of pours that were answered with a refusal.
pub fn reports_show_what_links_did()
    ensures { ReportsShowWhatLinksDid }
{}

/// A channel's *refused* is the number of submits on it at the first link of its route that were answered with a refusal.
pub fn reports_show_refused_sends()
    ensures { ReportsShowRefusedSends }
{}

/// The line after those of the links tells the number of the run's entries.
pub fn reports_show_the_steps()
    ensures { ReportsShowTheSteps }
{}

/// In the report of a run, where the line of an accepted channel says that its source keeps its contract, its worst delay is at most the
/// delay of the accept line. Under delay-jitter control its worst and its least delay differ by less than the bound of the last
/// hop. Both are within what the request asks for.
pub fn reports_keep_their_bounds()
    ensures { ReportsKeepTheirBounds }
{}
