//! Ticks that a regulator gives, worked by hand.
use crate::due::is_due;
use net_units::Kind;
use regulator_core::Regulator;
use std::test::Fail;
use traffic_contract::{BadContract, Contract};

// A packet every 5 ticks and two in any 20, of up to 2 units.
fn paced() -> Result<Contract, BadContract> {
    Contract::new(5, 10, 20, 2)
}

#[test]
fn spaces_packets_under_rate_jitter_control(rt: HostRuntime) -> Result<(), Fail> {
    let mut regulator = Regulator::new(rt.alloc(), paced()?, Kind::Rate)?;
    is_due(&rt, &regulator.admit(0, 0), &0);
    is_due(&rt, &regulator.admit(2, 0), &5);
    is_due(&rt, &regulator.admit(4, 0), &20);
    is_due(&rt, &regulator.admit(50, 0), &50);
    Ok(())
}

#[test]
fn holds_an_early_packet_under_delay_jitter_control(rt: HostRuntime) -> Result<(), Fail> {
    let mut regulator = Regulator::new(rt.alloc(), paced()?, Kind::Jitter)?;
    is_due(&rt, &regulator.admit(4, 22), &22);
    Ok(())
}
