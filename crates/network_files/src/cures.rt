//! What would do in place of a line that is refused.
use scenario_reader::Cause;

/// What has to hold of a line that is refused for this cause.
pub fn cure_of(cause: Cause) -> &'static str {
    match cause {
        Cause::Header =>
            "the first line, notes and empty lines aside, has to be one of tenet 1 to tenet 6",
        Cause::Word =>
            "a line can't begin with this word here; the order is: header, links, groups, quotas, callers, each with its operations, rounds, tail, schedule, do",
        Cause::Shape =>
            "a byte, a space, a fixed word or the number of fields is wrong for such a line",
        Cause::Name =>
            "a name is a letter followed by letters, digits and _, at most 16 characters in all, and isn't contract or plane",
        Cause::Number =>
            "a number is 1 to 18 decimal digits, without a sign, point, comma or leading 0",
        Cause::Known =>
            "a new link, group, caller or request needs a name that no other of its kind has, and a group has at most one quota of a link",
        Cause::Unknown =>
            "no link, node, group, request of this caller, or actor has this name above this line",
        Cause::Range => "the number is out of range",
        Cause::Many =>
            "a scenario has at most 32 links, 4 groups, 64 callers and 1,024 requests, and this is one more",
        Cause::Contract =>
            "in a contract XMIN is at most XAVE, XAVE is at most I, and I / XAVE, rounded down, is at most 256",
        Cause::Levels =>
            "the bounds of a link have to rise, and its largest packet has to fit into the first",
        Cause::Route =>
            "the links of a route are all different, and each begins at the node where the one before it ends; the nodes after from and to differ",
        Cause::Closed =>
            "the request was closed above, or moved from; nothing more can be sent on it or moved from it, and a closed one can't be closed again",
        Cause::Load =>
            "COUNT times hops, summed over all sends, pours and moves, is at most 262,144, and rounds + tail, times the number of links, is at most 524,288",
        Cause::Reach => "no route of at most 16 links leads from the first node to the second",
        Cause::Best => "a pour needs a link with best",
        Cause::Quota =>
            "a quota has one load for each level of its link, and all quotas of a link have to leave room for its largest packet within each bound and fit into its buffer",
        Cause::Move =>
            "a move is from one request to another with the same contract, whose route begins and ends at the same nodes, and which nothing above has used",
        Cause::End => "the input ended before its tail line",
        Cause::Cut => "the input ended inside this line: its line feed is missing",
        Cause::Step => "this do line asks for a step that its actor doesn't have left",
        Cause::Accept | Cause::Table => "this line isn't one of a scenario",
    }
}
