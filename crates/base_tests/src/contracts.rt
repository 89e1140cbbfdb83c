//! A contract's numbers, worked by hand.
use crate::due::is_due;
use std::process::Abort;
use std::test::Fail;
use traffic_contract::{BadContract, Contract, ContractField};

// A packet every 5 ticks and two in any 20, of up to 2 units.
fn paced() -> Result<Contract, BadContract> {
    Contract::new(5, 10, 20, 2)
}

// In windows of so many ticks there are at most so many packets.
fn bounds(rt: &impl Abort, contract: &Contract, due: &[(u64, u64)]) {
    for (window, packets) in due {
        assert!(rt; *window <= 80);
        is_due(rt, &contract.bound(*window), packets);
    }
}

#[test]
fn bounds_the_packets_of_a_window(rt: HostRuntime) -> Result<(), Fail> {
    let contract = paced()?;
    is_due(&rt, &contract.burst(), &2);
    is_due(&rt, &contract.xmin(), &5);
    is_due(&rt, &contract.xave(), &10);
    is_due(&rt, &contract.interval(), &20);
    is_due(&rt, &contract.smax(), &2);
    let due = [
        (0, 0),
        (1, 1),
        (5, 1),
        (6, 2),
        (10, 2),
        (20, 2),
        (21, 3),
        (23, 3),
        (40, 4),
        (80, 8),
    ];
    bounds(&rt, &contract, &due);
    Ok(())
}

#[test]
fn refuses_the_first_number_that_fails(rt: HostRuntime) {
    let small_average = Contract::new(5, 4, 20, 2);
    assert_eq!(rt;
        small_average.err(),
        Some(BadContract {
            field: ContractField::Xave
        })
    );
    let large_burst = Contract::new(1, 1, 257, 1);
    assert_eq!(rt;
        large_burst.err(),
        Some(BadContract {
            field: ContractField::Interval
        })
    );
}

#[test]
fn tells_which_ticks_keep_the_contract(rt: HostRuntime) -> Result<(), Fail> {
    let contract = paced()?;
    for kept in [[].as_slice(), &[0, 10, 20], &[0, 5, 20]] {
        assert!(rt; contract.keeps(kept), "{kept:?}");
    }
    for broken in [[0, 4].as_slice(), &[0, 5, 19]] {
        assert!(rt; !contract.keeps(broken), "{broken:?}");
    }
    Ok(())
}
