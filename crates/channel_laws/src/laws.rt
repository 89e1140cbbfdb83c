//! Laws of one link's channels, each as the contract of a function that does nothing.
ghost use Rattle.channel_laws.specs.Laws.{OffersAnswerReserves, WhatLeavesIsInTime, AChannelHasOneRow, PacketsLeaveInOrder, SizesKeepTheContract, KeepingSourcesAreServed, EntriesChangeTheirReservation, AsksAreAnswered, PlannedPacketsMayMove};

/// In an admissible history an offer is the reply to a reserve alone, and its level is one of the link's.
pub fn offers_answer_reserves()
    ensures { OffersAnswerReserves }
{}

/// A packet that a tick of an admissible history tells as sent is the one that started last. It departs at the tick's end,
/// later than its eligible tick and within the bound of its level.
pub fn what_leaves_is_in_time()
    ensures { WhatLeavesIsInTime }
{}

/// In an admissible history that offers to a channel at most once, all packets of the channel belong to one row, held or
/// gone: they are numbered from 1, their eligible ticks are the row's and keep its contract, and their level is the row's.
/// At a later hop the row has no source packets planned.
pub fn a_channel_has_one_row()
    ensures { AChannelHasOneRow }
{}

/// Where a link offers to a channel at most once, each packet of it that a tick sends is the next in its order: its number
/// is one more than the count of those that had departed. Any other tick keeps that count.
pub fn packets_leave_in_order()
    ensures { PacketsLeaveInOrder }
{}

/// Each packet of a channel that a link has taken is within the size of the contract that the channel's reserves name.
pub fn sizes_keep_the_contract()
    ensures { SizesKeepTheContract }
{}

/// Where the source of a channel keeps its contract at the first hop, no packet of it is dropped, and each is eligible in the
/// tick in which it arrives. This holds whether the channel's row is held or gone.
pub fn keeping_sources_are_served()
    ensures { KeepingSourcesAreServed }
{}

/// An entry that names another channel, or none, leaves a channel's reservation as it is unless that is closing. A submit, a
/// release, an arrival or a tick leaves it as it is, closes it, or lets it expire. An offer is held as tentative, a relax
/// commits it, and a deny gives it back.
pub fn entries_change_their_reservation()
    ensures { EntriesChangeTheirReservation }
{}

/// Where a channel's reservation is committed, a submit at its first hop is planned, or refused as busy or too big, and a
/// release of its hop is answered. Best-effort packets are planned, or refused as busy or too big. A packet that arrives
/// is taken, or refused as full or stray.
pub fn asks_are_answered()
    ensures { AsksAreAnswered }
{}

/// Where a channel's reservation is committed and nothing was submitted on it, a submit of packets within its contract is
/// planned. A release cancels no more packets than one submit may plan. So the planned packets of one channel can move to
/// another one.
pub fn planned_packets_may_move()
    ensures { PlannedPacketsMayMove }
{}
