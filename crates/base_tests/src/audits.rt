//! Tables that are worked out by hand.
use packet_audit::{Fault, Found, Promise, Row, audit};
use std::test::Fail;
use traffic_contract::Contract;

// A packet every 5 ticks and two in any 20; each arrives within 30 ticks, and two delays differ by less than 10.
fn promised() -> Result<Promise, Fail> {
    Ok(Promise {
        contract: Contract::new(5, 10, 20, 2)?,
        delay: 30,
        jitter: Some(10),
    })
}

fn row(channel: usize, sent: u64, arrived: u64) -> Row {
    Row {
        channel,
        sent,
        arrived,
    }
}

#[test]
fn late_and_uneven_rows_are_found(rt: HostRuntime) -> Result<(), Fail> {
    let rows = [
        row(0, 0, 25),
        row(1, 3, 1000),
        row(0, 10, 42),
        row(0, 30, 46),
        row(0, 40, 65),
        row(0, 60, 59),
    ];
    let found = audit(rt.alloc(), &[promised()?], &rows)?;
    assert_eq!(rt;
        found.as_slice(),
        [
            Found {
                row: 2,
                fault: Fault::Unknown
            },
            Found {
                row: 3,
                fault: Fault::Late { by: 2 }
            },
            Found {
                row: 4,
                fault: Fault::Uneven { apart: 16 }
            },
            Found {
                row: 6,
                fault: Fault::BeforeSent
            },
        ]
        .as_slice()
    );
    Ok(())
}

#[test]
fn a_source_that_breaks_its_contract_is_promised_nothing(rt: HostRuntime) -> Result<(), Fail> {
    let rows = [
        row(0, 0, 10),
        row(0, 5, 15),
        row(0, 19, 90),
        row(0, 100, 200),
    ];
    let found = audit(rt.alloc(), &[promised()?], &rows)?;
    assert_eq!(rt;
        found.as_slice(),
        [Found {
            row: 3,
            fault: Fault::BreaksContract
        }]
        .as_slice()
    );
    Ok(())
}
