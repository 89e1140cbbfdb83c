//! Laws of a link's rows and their packets, each as the contract of a function that does nothing.
ghost use Rattle.link_steps.specs.RowLaws.{PacketsAreNumbered, EachPacketHasARow, RowsOfAWindowStandTogether, PacketsFitTheirSlots, EligibleTicksAreSoon, JournalsAreHistories};

/// The packets that a link has taken have the arrival numbers from 1 on, best-effort packets among them.
pub fn packets_are_numbered()
    ensures { PacketsAreNumbered }
{}

/// Each packet of a channel belongs to one row, held or gone, and to no other: the one with its lead. Its level is that of the
/// row, which is one of the link's, and its eligible tick is one of the row's.
pub fn each_packet_has_a_row()
    ensures { EachPacketHasARow }
{}

/// Take a window as long as the bound of level m. All rows with a packet of the levels up to m that is eligible in it
/// stand in one list that passes the admission test: the rows held when the clock last hadn't passed the window, or at the
/// end. So the window that the link's test finds for level m fits all that they bring (`every_window_fits`), and a busy
/// period ends within it (`busy_period_ends`).
pub fn rows_of_a_window_stand_together()
    ensures { RowsOfAWindowStandTogether }
{}

/// A held row never has more packets here than slots, whatever its source does.
pub fn packets_fit_their_slots()
    ensures { PacketsFitTheirSlots }
{}

/// While a link's clock is at most 2^61, no eligible tick reaches 2^63.
pub fn eligible_ticks_are_soon()
    ensures { EligibleTicksAreSoon }
{}

/// A journal, which lists entries in the order of time, is legal entry by entry exactly where the history that it turns into,
/// newest first, is legal.
pub fn journals_are_histories()
    ensures { JournalsAreHistories }
{}
