//! Holds of a small budget, and of the largest.
use buffer_budget::{Budget, NoRoom};

#[test]
fn holds_cuts_and_gives_back(rt: HostRuntime) {
    let mut budget = Budget::new(10);
    assert_eq!(rt; budget.try_hold(4), Ok(()));
    assert_eq!(rt; budget.try_hold(7), Err(NoRoom { need: 7, free: 6 }));
    budget.cut(4, 2);
    assert_eq!(rt; budget.free(), 8);
    budget.give_back(2);
    assert_eq!(rt; budget.free(), 10);
}

#[test]
fn holds_the_whole(rt: HostRuntime) {
    let mut budget = Budget::new(u64::MAX);
    assert_eq!(rt; budget.try_hold(u64::MAX), Ok(()));
    assert_eq!(rt; budget.free(), 0);
    assert_eq!(rt; budget.try_hold(0), Ok(()));
    assert_eq!(rt; budget.try_hold(1), Err(NoRoom { need: 1, free: 0 }));
}
