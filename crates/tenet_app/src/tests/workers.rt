//! The rounds of the plane by several workers: two links that meet within a round.
use super::meeting::Meeting;
use super::{SOUND, run};
use crate::status::Status;
use std::process::Abort;
use std::test::Fail;

// Two links, no caller and one round.
const TWO_LINKS: &str = "tenet 1
link A n1 n2 rate 1 cap 4 prop 2 buffer 100 levels 10 20 40
link B n2 n3 rate 1 cap 4 prop 2 buffer 100 levels 10 20 40
rounds 1
tail 0
";

// Each link's ask waits until the other's has come. None is late.
#[test]
fn two_links_tick_beside_each_other(rt: HostRuntime) -> Result<(), Fail> {
    let gate = Meeting::new(2);
    let words = ["play", "--workers", "2"];
    let run = run(&rt, rt.alloc(), &words, TWO_LINKS.as_bytes(), SOUND, &gate)?;
    assert_eq!(rt; run.status, Status::Done);
    assert_eq!(rt; gate.met(), 2);
    Ok(())
}
