//! Values of the limits, worked by hand.
use crate::due::{are_due, is_due};
use net_units::{ActorNo, Bounds, ChanNo, Level, Levels, LinkNo, Listed, Name, ceil_div};
use std::alloc::Global;
use std::process::Abort;
use std::test::Fail;

// Each first number over the second one is the third.
fn quotients(rt: &impl Abort, due: &[(u64, u64, u64)]) {
    for (a, b, quotient) in due {
        assert!(rt; 1 <= *b);
        is_due(rt, &ceil_div(*a, *b), quotient);
    }
}

#[test]
fn quotients_are_rounded_up(rt: HostRuntime) {
    let due = [
        (0, 1, 0),
        (4, 1, 4),
        (1500, 125, 12),
        (1501, 125, 13),
        (200, 125, 2),
        (1, 65_536, 1),
        (u64::MAX, 2, 1 << 63),
    ];
    quotients(&rt, &due);
}

// The largest level within each delay is that.
fn are_within(rt: &impl Abort, bounds: &Bounds, due: &[(u64, Option<u8>)]) {
    for (delay, level) in due {
        is_due(rt, &bounds.within(*delay).map(|level| level.get()), level);
    }
}

#[test]
fn the_largest_level_within_a_delay(rt: HostRuntime) -> Result<(), Fail> {
    let bounds = Bounds::new(&[10, 20, 40]).ok_or("bounds")?;
    let due = [
        (9, None),
        (10, Some(1)),
        (19, Some(1)),
        (20, Some(2)),
        (39, Some(2)),
        (40, Some(3)),
        (u64::MAX, Some(3)),
    ];
    are_within(&rt, &bounds, &due);
    is_due(&rt, &bounds.len(), &3);
    is_due(&rt, &bounds.last(), &40);
    is_due(&rt, &bounds.at(Level::LEAST), &10);
    Ok(())
}

#[test]
fn bounds_rise_and_are_few_and_small(rt: HostRuntime) {
    is_bounds(&rt, &[1], true);
    is_bounds(&rt, &[1, 2, 3, 4, 5, 6, 7, 1_048_576], true);
    is_bounds(&rt, &[], false);
    is_bounds(&rt, &[0], false);
    is_bounds(&rt, &[10, 10], false);
    is_bounds(&rt, &[10, 20, 19], false);
    is_bounds(&rt, &[1_048_577], false);
    is_bounds(&rt, &[1, 2, 3, 4, 5, 6, 7, 8, 9], false);
}

fn is_bounds(rt: &impl Abort, bounds: &[u32], fits: bool) {
    assert_eq!(rt; Bounds::new(bounds).is_some(), fits, "{bounds:?}");
}

// Each text is a name, or isn't.
fn are_names(rt: &impl Abort, due: &[(&str, bool)]) {
    for (text, fits) in due {
        is_due(rt, &Name::new(text.as_bytes()).is_some(), fits);
    }
}

#[test]
fn names_begin_with_a_letter(rt: HostRuntime) {
    let due = [
        ("r", true),
        ("A", true),
        ("n1_x", true),
        ("Z9", true),
        ("abcdefghijklmnop", true),
        ("abcdefghijklmnopq", false),
        ("contracts", true),
        ("contract", false),
        ("Plane", true),
        ("plane", false),
        ("", false),
        ("9r", false),
        ("_r", false),
        ("r-1", false),
        ("r 1", false),
        ("Z0", true),
        ("a9", true),
        ("z_", true),
        ("@", false),
        ("[", false),
        ("`", false),
        ("{", false),
        ("a/", false),
        ("a:", false),
    ];
    are_names(&rt, &due);
}

// A name as it is displayed, and as it is shown where a test fails.
fn shown(alloc: Global, name: &Name) -> Result<String, Fail> {
    Ok(format!(in alloc; "{name} {name:?}")?)
}

#[test]
fn a_name_is_its_text(rt: HostRuntime) -> Result<(), Fail> {
    let name = Name::new(b"r1").ok_or("name")?;
    let other = Name::new(b"r10").ok_or("name")?;
    are_due(&rt, name.as_bytes(), b"r1");
    assert!(rt; name == name && name != other);
    are_due(&rt, shown(rt.alloc(), &name)?.as_bytes(), b"r1 \"r1\"");
    Ok(())
}

// This is the number of a link, of an actor and of a level, or isn't.
fn is_number(rt: &impl Abort, number: u8) {
    let link = LinkNo::new(number).map(|link| link.get());
    is_due(rt, &link, &(number < 32).then_some(number));
    let actor = ActorNo::new(number).map(|actor| actor.get());
    is_due(rt, &actor, &(number < 65).then_some(number));
    let level = Level::new(number).map(|level| level.get());
    let is_level = 1 <= number && number <= 8;
    is_due(rt, &level, &is_level.then_some(number));
}

#[test]
fn numbers_end_at_their_limits(rt: HostRuntime) {
    for number in 0..=255 {
        is_number(&rt, number);
    }
    let last = ChanNo::new(1_048_575).map(|channel| channel.get());
    is_due(&rt, &last, &Some(1_048_575));
    is_due(&rt, &ChanNo::new(1_048_576), &None);
}

// There are so many levels, and at these places stand these.
fn are_levels(rt: &impl Abort, levels: &Levels, count: u8, due: &[(u8, u8)]) {
    is_due(rt, &levels.len(), &count);
    for (place, number) in due {
        assert!(rt; 1 <= *place && *place <= levels.len());
        is_due(rt, &levels.at(*place).get(), number);
    }
}

#[test]
fn a_route_has_up_to_16_levels(rt: HostRuntime) -> Result<(), Fail> {
    let last = Level::new(8).ok_or("level")?;
    let mut levels = Levels::new();
    for _ in 0..15 {
        assert!(rt; levels.len() < 16);
        levels.push(Level::LEAST);
    }
    assert!(rt; levels.len() < 16);
    levels.push(last);
    are_levels(&rt, &levels, 16, &[(15, 1), (16, 8)]);
    Ok(())
}

#[test]
fn levels_are_kept_in_order(rt: HostRuntime) -> Result<(), Fail> {
    let mut levels = Levels::new();
    are_levels(&rt, &levels, 0, &[]);
    for number in [2, 1, 8] {
        let level = Level::new(number).ok_or("level")?;
        assert!(rt; levels.len() < 16);
        levels.push(level);
    }
    are_levels(&rt, &levels, 3, &[(1, 2), (2, 1), (3, 8)]);
    levels.clear();
    are_levels(&rt, &levels, 0, &[]);
    Ok(())
}

#[test]
fn a_list_grows_at_its_end(rt: HostRuntime) -> Result<(), Fail> {
    let mut list = Listed::new(Vec::new(rt.alloc()));
    for number in [3u8, 1, 2] {
        list.push(number)?;
    }
    are_due(&rt, list.as_slice(), &[3, 1, 2]);
    are_due(&rt, list.into_vec().as_slice(), &[3, 1, 2]);
    Ok(())
}
