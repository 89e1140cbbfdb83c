//! A worked reserve at a chosen level, and what a caller sees of the rows held.
use super::history::{step, three_levels};
use super::{chan, level, offer, reserve, voice};
use link_server::{HeldRow, LinkState};
use link_steps::{Ask, LinkStep, Phase, Reply};
use net_units::Kind;
use std::alloc::Global;
use std::test::Fail;

// What a new link answers where channel 1 is reserved at the second level, and then channel 2 at its best: before the first of
// these what it would keep, and after both the rows held.
#[derive(Drop)]
struct Answers {
    chosen: Reply,
    next: Reply,
    need: u64,
    rows: Rows,
}

// The rows held, by place, of the second channel, of a third, and how many.
#[derive(Drop)]
struct Rows {
    held: [Option<HeldRow>; 3],
    second: Option<HeldRow>,
    third: Option<HeldRow>,
    count: u32,
}

// A link whose rows can be seen.
trait Shown: LinkStep {
    fn rows(&self) -> Rows;
}

impl Shown for LinkState {
    fn rows(&self) -> Rows {
        Rows {
            held: [self.held(0), self.held(1), self.held(2)],
            second: self.held_of(chan(2)),
            third: self.held_of(chan(3)),
            count: self.rows_held(),
        }
    }
}

fn choose(alloc: Global) -> Result<Answers, Fail> {
    let contract = voice()?;
    let shape = three_levels(100)?;
    let mut link = LinkState::new(alloc, shape)?;
    let ask = Ask::Reserve {
        chan: chan(1),
        contract,
        kind: Kind::Rate,
        delay: 50,
        up_reach: 0,
        first: true,
        next: None,
    };
    let at = level(2);
    let need = link.need_at(&contract, 50, 0, at);
    let chosen = link.reserve_at(&ask, at)?;
    go_on(link, need, chosen, &reserve(2, &contract, 12))
}

// What this link replies next, and its rows.
fn go_on<L: Shown>(link: L, need: u64, chosen: Reply, ask: &Ask) -> Result<Answers, Fail> {
    let mut link = link;
    let next = step(&mut link, ask)?;
    let rows = link.rows();
    Ok(Answers {
        chosen,
        next,
        need,
        rows,
    })
}

// The best level of the first channel is the first; it is held at the second, and so the first is left for another.
#[test]
fn a_caller_chooses_the_level(rt: HostRuntime) -> Result<(), Fail> {
    let contract = voice()?;
    let answers = choose(rt.alloc())?;
    assert_eq!(rt; answers.chosen, offer(2, 3));
    assert_eq!(rt; answers.next, offer(1, 1));
    assert_eq!(rt; (answers.need, answers.rows.count), (8, 2));
    let first = HeldRow {
        chan: chan(1),
        contract,
        level: level(2),
        phase: Phase::Tentative,
        kept: 8,
    };
    let second = HeldRow {
        chan: chan(2),
        contract,
        level: level(1),
        phase: Phase::Tentative,
        kept: 4,
    };
    assert_eq!(rt; answers.rows.held, [Some(first), Some(second), None]);
    let second_place = answers.rows.held[1];
    assert_eq!(rt;
        (answers.rows.second, answers.rows.third),
        (second_place, None)
    );
    Ok(())
}
