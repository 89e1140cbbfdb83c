//! When a hold ends.
use release_hold::Draining;

#[test]
fn waits_for_the_last_bound(rt: HostRuntime) {
    let draining = Draining {
        last: 3,
        eligible: 3,
        last_tick: 20,
    };
    assert!(rt; !draining.due(59, 40));
    assert!(rt; draining.due(60, 40));
}

#[test]
fn waits_for_the_count(rt: HostRuntime) {
    let draining = Draining {
        last: 3,
        eligible: 2,
        last_tick: 20,
    };
    assert!(rt; !draining.due(60, 40));
}

#[test]
fn waits_for_nothing_without_packets(rt: HostRuntime) {
    let draining = Draining {
        last: 0,
        eligible: 0,
        last_tick: 0,
    };
    assert!(rt; draining.due(0, 40));
}
