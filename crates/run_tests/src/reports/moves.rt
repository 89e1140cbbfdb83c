//! Reports of runs in which a caller moves packets between two channels over that link.
use one_link_plans::moved;
use std::alloc::Global;
use std::process::Abort;
use std::test::Fail;

// The report of the run in which the caller makes five steps, up to its send, the plane 15 ticks, the caller as many steps as are given
// here, and the plane again as many.
fn reports<R: Abort>(
    rt: &R,
    alloc: Global,
    delay: u64,
    caller: u64,
    plane: u64,
    text: &str,
) -> Result<(), Fail> {
    let plan = moved(alloc, delay)?;
    let turns = [(0, 5), (1, 15), (0, caller), (1, plane)];
    super::reports(rt, alloc, &plan, &turns, false, 65_536, text)
}

// In 15 ticks the packets of ticks 0 and 10 are taken. Those that are moved come in ticks 15 and 25. Nothing else is on the link.
#[test]
fn a_move_has_a_line_once_it_is_made(rt: HostRuntime) -> Result<(), Fail> {
    let alloc = rt.alloc();
    let made = "accept r1 delay 12 levels 1\n\
        accept r2 delay 42 levels 3\n\
        move r1 r2 kept 2 shifted 2\n\
        channel r1 offered 2 keeps delivered 2 least 4 worst 4 refused 0\n\
        channel r2 offered 2 keeps delivered 2 least 4 worst 4 refused 0\n\
        link A clock 35 sent 4 full 0\n\
        end steps 42\n";
    reports(&rt, alloc, 50, 2, 20, made)?;
    // without its submit the move is under way
    let begun = "accept r1 delay 12 levels 1\n\
        accept r2 delay 42 levels 3\n\
        channel r1 offered 2 keeps delivered 2 least 4 worst 4 refused 0\n\
        channel r2 offered 0 keeps delivered 0 least - worst - refused 0\n\
        link A clock 35 sent 2 full 0\n\
        end steps 41\n";
    reports(&rt, alloc, 50, 1, 20, begun)
}

// The link offers level 2, 20 + 2 ticks. So the second request is denied, and the move takes no step.
#[test]
fn a_move_to_what_was_denied_has_no_line(rt: HostRuntime) -> Result<(), Fail> {
    let denied = "accept r1 delay 12 levels 1\n\
        deny r2 end delay 22 21\n\
        channel r1 offered 4 keeps delivered 4 least 4 worst 4 refused 0\n\
        link A clock 35 sent 4 full 0\n\
        end steps 40\n";
    reports(&rt, rt.alloc(), 21, 0, 20, denied)
}
