//! Laws of a link's rules, each as the contract of a function that does nothing.
ghost use Rattle.link_steps.specs.Laws.{HeldRowsAlwaysPass, BusyPeriodEnds, AccountGivesReply, AccountGoesOn, LegalHasContracts, EveryRowKeepsItsContract, EveryPacketHasWork, EveryWindowFits, EveryPacketLeavesInTime, HonestSourcesFindBuffer, LegalIsAdmissible, HeldRowsFitBuffer, RepliesAreDetermined};
ghost use Rattle.link_steps.specs.Quiet.{QuietTicksChangeTheClock};

/// In every admissible history of every link the held rows pass the admission test after every entry.
pub fn held_rows_pass()
    ensures { HeldRowsAlwaysPass }
{}

/// A busy period of the levels up to some level, over any list of packets, ends within a window into which the work of
/// these levels' packets fits together with the blocking.
pub fn busy_period_ends()
    ensures { BusyPeriodEnds }
{}

/// For every history whose rows have contracts, the legal reply to an ask is the one that is given by the account of
/// what the link keeps.
pub fn account_gives_reply()
    ensures { AccountGivesReply }
{}

/// For every history whose rows have contracts, the account of the history with one more entry is what that entry makes
/// of the account before it.
pub fn account_goes_on()
    ensures { AccountGoesOn }
{}

/// The rows of every admissible history have contracts.
pub fn legal_rows_have_contracts()
    ensures { LegalHasContracts }
{}

/// In every admissible history the eligible ticks of each row, held or gone, keep its contract, whatever its source does.
pub fn every_row_keeps_its_contract()
    ensures { EveryRowKeepsItsContract }
{}

/// Each packet of an admissible history occupies the link for at least one tick, and at most the link's blocking: the ticks
/// of its largest packet.
pub fn every_packet_has_work()
    ensures { EveryPacketHasWork }
{}

/// In every admissible history the packets of the levels up to m that are eligible in any window as long as the bound of
/// level m fit the window together with the blocking. Channels that have been released or are gone count too: the hold
/// keeps them in the admission test while a packet of theirs can be in such a window.
pub fn every_window_fits()
    ensures { EveryWindowFits }
{}

/// Every admissible history of every link has the hop guarantee. After each of its entries the held rows pass the admission
/// test; each packet that has departed did so later than its eligible tick, and at most the bound of its level later; and
/// each packet whose eligible tick and bound the clock has reached has departed. Nothing is assumed about what arrives, nor
/// about when channels come and go. (Static-priority service of regulated packets: Zhang & Ferrari 1993; the hold of
/// released channels is ours.)
pub fn every_packet_leaves_in_time()
    ensures { EveryPacketLeavesInTime }
{}

/// In every admissible history a source that keeps its contract loses no packet at its channel's first hop. Each of its
/// packets is eligible in the tick in which it arrives, and leaves at most the bound of its level after it arrives. It
/// doesn't matter what the other sources do, nor when channels come and go.
pub fn honest_sources_find_buffer()
    ensures { HonestSourcesFindBuffer }
{}

/// Every legal history of a link whose split fits it is admissible.
pub fn legal_is_admissible()
    ensures { LegalIsAdmissible }
{}

/// In every admissible history the held rows together keep no more than the link's buffer.
pub fn held_rows_fit_the_buffer()
    ensures { HeldRowsFitBuffer }
{}

/// A legal history goes on with every ask that meets the conditions, and its asks determine its replies.
pub fn replies_are_determined()
    ensures { RepliesAreDetermined }
{}

/// A link in which nothing falls due before some tick makes all ticks before it by changing its clock alone.
pub fn quiet_ticks_change_the_clock()
    ensures { QuietTicksChangeTheClock }
{}
