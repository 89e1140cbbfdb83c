//! Numbers of real networks, worked by hand.
//!
//! A comparison is dear to prove for what it prints where it fails, and so are a table's rows among the facts of each step. So comparisons
//! stand in functions of their own, and tables are gone through where their rows aren't known.

use field_units::serving::tried_scales;
use field_units::text::BadQuantity;
use field_units::{BadStream, Misfit, Rate, Scale, Size, Stream, Time};
use std::alloc::Global;
use std::fmt::{Debug, Display};
use std::process::Abort;
use std::test::Fail;
use traffic_contract::Contract;

const MICROSECOND: u64 = 1_000_000;

/// Ticks of ten microseconds, and units of a byte.
fn scale() -> Result<Scale, Fail> {
    scale_of(10, 1)
}

/// Ticks of so many microseconds, and units of so many bytes.
fn scale_of(tick: u64, unit: u64) -> Result<Scale, Fail> {
    Ok(Scale::new(microseconds(tick), bytes(unit)).ok_or("no scale")?)
}

fn microseconds(count: u64) -> Time {
    Time {
        picoseconds: count.saturating_mul(MICROSECOND),
    }
}

fn bytes(count: u64) -> Size {
    Size {
        bits: count.saturating_mul(8),
    }
}

fn megabits(count: u64) -> Rate {
    Rate {
        bits_a_second: count.saturating_mul(1_000_000),
    }
}

/// What was found is what is due.
fn is_due<T: PartialEq + Debug>(rt: &impl Abort, found: &T, due: &T) {
    assert_eq!(rt; found, due);
}

/// A text, and the number that is read from it.
type Written = (&'static str, Result<u64, BadQuantity>);

const TIMES: [Written; 21] = [
    ("0.5 ms", Ok(500_000_000)),
    ("250us", Ok(250_000_000)),
    ("20 µs", Ok(20_000_000)),
    ("20 μs", Ok(20_000_000)),
    ("  1.50 s ", Ok(1_500_000_000_000)),
    ("123.04us", Ok(123_040_000)),
    ("1 h", Ok(3_600_000_000_000_000)),
    ("0 ps", Ok(0)),
    ("0.5 ps", Err(BadQuantity::Inexact)),
    ("5", Err(BadQuantity::Unit)),
    ("5 sec", Err(BadQuantity::Unit)),
    ("5 MS", Err(BadQuantity::Unit)),
    ("ms", Err(BadQuantity::Number)),
    (".5 ms", Err(BadQuantity::Number)),
    ("5. ms", Err(BadQuantity::Number)),
    ("1.2.3 ms", Err(BadQuantity::Number)),
    ("-1 ms", Err(BadQuantity::Number)),
    ("1e3 ms", Err(BadQuantity::Unit)),
    ("", Err(BadQuantity::Number)),
    ("20000000 s", Err(BadQuantity::Large)),
    (
        "99999999999999999999999999999999999999999 s",
        Err(BadQuantity::Large),
    ),
];

const SIZES: [Written; 9] = [
    ("1538 B", Ok(12_304)),
    ("1538 bytes", Ok(12_304)),
    ("84 byte", Ok(672)),
    ("64 KiB", Ok(524_288)),
    ("12000 bit", Ok(12_000)),
    ("1.5 kB", Ok(12_000)),
    ("0.1 B", Err(BadQuantity::Inexact)),
    ("1 KB", Err(BadQuantity::Unit)),
    ("1 b", Err(BadQuantity::Unit)),
];

const RATES: [Written; 6] = [
    ("100 Mbit/s", Ok(100_000_000)),
    ("2.048 Mbit/s", Ok(2_048_000)),
    ("1 Gbps", Ok(1_000_000_000)),
    ("12.5 MB/s", Ok(100_000_000)),
    ("100 Mb/s", Err(BadQuantity::Unit)),
    ("100 Mbit", Err(BadQuantity::Unit)),
];

fn picoseconds(text: &str) -> Result<u64, BadQuantity> {
    Ok(Time::parse(text)?.picoseconds)
}

fn bits(text: &str) -> Result<u64, BadQuantity> {
    Ok(Size::parse(text)?.bits)
}

fn bits_a_second(text: &str) -> Result<u64, BadQuantity> {
    Ok(Rate::parse(text)?.bits_a_second)
}

/// The text is read as it is due.
fn is_read_so(
    rt: &impl Abort,
    text: &str,
    found: Result<u64, BadQuantity>,
    due: &Result<u64, BadQuantity>,
) {
    assert_eq!(rt; found, *due, "{text}");
}

fn times_are_read(rt: &impl Abort, rows: &[Written]) {
    for (text, due) in rows {
        is_read_so(rt, text, picoseconds(text), due);
    }
}

fn sizes_are_read(rt: &impl Abort, rows: &[Written]) {
    for (text, due) in rows {
        is_read_so(rt, text, bits(text), due);
    }
}

fn rates_are_read(rt: &impl Abort, rows: &[Written]) {
    for (text, due) in rows {
        is_read_so(rt, text, bits_a_second(text), due);
    }
}

#[test]
fn times_as_engineers_write_them(rt: HostRuntime) {
    times_are_read(&rt, &TIMES);
}

#[test]
fn sizes_and_rates_as_engineers_write_them(rt: HostRuntime) {
    sizes_are_read(&rt, &SIZES);
    rates_are_read(&rt, &RATES);
}

/// The quantity is printed so.
fn is_printed<T: Display>(
    rt: &impl Abort,
    alloc: Global,
    quantity: &T,
    due: &str,
) -> Result<(), Fail> {
    let text = format!(in alloc; "{quantity}")?;
    assert_eq!(rt; text.as_str(), due);
    Ok(())
}

/// A number, and how the quantity of so many picoseconds, bits or bits a second is printed.
type Printed = (u64, &'static str);

fn times_are_printed(rt: &impl Abort, alloc: Global, rows: &[Printed]) -> Result<(), Fail> {
    for (picoseconds, due) in rows {
        let picoseconds = *picoseconds;
        is_printed(rt, alloc, &Time { picoseconds }, due)?;
    }
    Ok(())
}

#[test]
fn quantities_are_printed_in_the_largest_unit_that_is_exact(rt: HostRuntime) -> Result<(), Fail> {
    let alloc = rt.alloc();
    let times = [
        (500_000_000, "500 us"),
        (1_500_000_000, "1500 us"),
        (0, "0 ps"),
    ];
    times_are_printed(&rt, alloc, &times)?;
    is_printed(&rt, alloc, &bytes(1_538), "1538 B")?;
    let bits_a_second = 2_048_000;
    is_printed(&rt, alloc, &Rate { bits_a_second }, "2048 kbit/s")
}

const ROUNDED_TIMES: [Printed; 12] = [
    (1_530_417_000, "~1.53 ms"),
    (1_530_000_000, "1530 us"),
    (15_300_000_001, "~15.3 ms"),
    (999_600_001, "~1 ms"),
    (12_345_600_000, "~12.3 ms"),
    (123_456_000_000, "~123 ms"),
    (123_000_000_000, "123 ms"),
    (12_300_000_000_000, "12.3 s"),
    (12_345_000_000_000_000, "~3.43 h"),
    (9_999, "9999 ps"),
    (10_004, "~10 ns"),
    (0, "0 ps"),
];

const ROUNDED_RATES: [Printed; 3] = [
    (2_048_000, "2048 kbit/s"),
    (9_953_280_000, "~9.95 Gbit/s"),
    (12_300_000_000, "12.3 Gbit/s"),
];

fn rounded_times_are_printed(rt: &impl Abort, alloc: Global, rows: &[Printed]) -> Result<(), Fail> {
    for (picoseconds, due) in rows {
        let picoseconds = *picoseconds;
        is_printed(rt, alloc, &Time { picoseconds }.rounded(), due)?;
    }
    Ok(())
}

fn rounded_rates_are_printed(rt: &impl Abort, alloc: Global, rows: &[Printed]) -> Result<(), Fail> {
    for (bits_a_second, due) in rows {
        let bits_a_second = *bits_a_second;
        is_printed(rt, alloc, &Rate { bits_a_second }.rounded(), due)?;
    }
    Ok(())
}

/// 1.530417 ms, 999.6 us, 12.3456 ms, 12,345 s; a frame of 1,538 bytes, 1,234,567 bytes; a trunk of 2.048 Mbit/s and a
/// carrier of 9.95328 Gbit/s.
#[test]
fn quantities_are_rounded_with_a_sign_that_they_are(rt: HostRuntime) -> Result<(), Fail> {
    let alloc = rt.alloc();
    rounded_times_are_printed(&rt, alloc, &ROUNDED_TIMES)?;
    is_printed(&rt, alloc, &bytes(1_538).rounded(), "1538 B")?;
    is_printed(&rt, alloc, &bytes(1_234_567).rounded(), "~1.23 MB")?;
    rounded_rates_are_printed(&rt, alloc, &ROUNDED_RATES)
}

/// A link of 100 Mbit/s sends 125 bytes in ten microseconds, and one of 2.048 Mbit/s 32 bytes in a frame of 125 microseconds.
#[test]
fn rates_of_links(rt: HostRuntime) -> Result<(), Fail> {
    let ten = scale()?;
    let frame = scale_of(125, 1)?;
    let trunk = Rate {
        bits_a_second: 2_048_000,
    };
    // it takes 8 ms for a byte
    let slow = Rate {
        bits_a_second: 1_000,
    };
    is_due(&rt, &ten.rate(megabits(100)), &Ok(125));
    is_due(&rt, &frame.rate(trunk), &Ok(32));
    let longer = Err(Misfit::LongerTick(microseconds(8_000)));
    is_due(&rt, &ten.rate(slow), &longer);
    is_due(&rt, &ten.rate(megabits(100_000_000)), &Ok(65_536));
    is_due(&rt, &ten.rate(megabits(0)), &Err(Misfit::Never));
    Ok(())
}

fn times_are_rounded(rt: &impl Abort, ten: &Scale) {
    is_due(rt, &ten.bound(microseconds(505)), &Ok(50));
    let shorter = Misfit::ShorterTick(microseconds(9));
    is_due(rt, &ten.bound(microseconds(9)), &Err(shorter));
    is_due(rt, &ten.jitter(microseconds(505)), &Ok(50));
    is_due(rt, &ten.delay(microseconds(50_000)), &Ok(4_999));
    let picoseconds = 9_500_000;
    let shorter = Misfit::ShorterTick(Time { picoseconds });
    is_due(rt, &ten.delay(microseconds(19)), &Err(shorter));
    is_due(rt, &ten.propagation(microseconds(501)), &Ok(51));
    is_due(rt, &ten.gap(microseconds(125)), &Ok(13));
}

fn sizes_are_rounded(rt: &impl Abort, ten: &Scale) {
    is_due(rt, &ten.size(Size { bits: 12_305 }), &Ok(1_539));
    let larger = Misfit::LargerUnit(Size { bits: 9 });
    is_due(rt, &ten.size(bytes(65_537)), &Err(larger));
    is_due(rt, &ten.room(Size { bits: 8_191 }), &1_023);
}

#[test]
fn times_and_sizes_are_rounded_to_the_safe_side(rt: HostRuntime) -> Result<(), Fail> {
    let ten = scale()?;
    times_are_rounded(&rt, &ten);
    sizes_are_rounded(&rt, &ten);
    Ok(())
}

/// So many packets in a window of so many microseconds, so many apart, with such a jitter, each of so many bytes.
type Field = (u32, u64, u64, u64, u64);

fn stream((packets, window, apart, jitter, size): &Field) -> Stream {
    Stream {
        packets: *packets,
        window: microseconds(*window),
        apart: microseconds(*apart),
        jitter: microseconds(*jitter),
        size: bytes(*size),
    }
}

/// The stream has the contract of these four numbers.
fn has_contract(
    rt: &impl Abort,
    scale: &Scale,
    field: &Field,
    (xmin, xave, interval, smax): (u32, u32, u32, u32),
) {
    let found = scale.contract(&stream(field)).ok();
    is_due(rt, &found, &Contract::new(xmin, xave, interval, smax).ok());
}

/// It has none.
fn is_no_contract(rt: &impl Abort, scale: &Scale, field: &Field, why: BadStream) {
    is_due(rt, &scale.contract(&stream(field)).err(), &Some(why));
}

/// A virtual link with a bandwidth allocation gap of 2 ms and a jitter of 0.4 ms, as five packets in 10 ms; G.711 over Ethernet, 238 bytes
/// every 20 ms; and a camera whose 30 packets of 1,538 bytes follow each other at 100 Mbit/s once in 40 ms.
#[test]
fn contracts_of_streams_in_the_field(rt: HostRuntime) -> Result<(), Fail> {
    let ten = scale()?;
    let virtual_link = (5, 10_000, 2_000, 400, 84);
    has_contract(&rt, &ten, &virtual_link, (160, 192, 960, 84));
    let voice = (1, 20_000, 20_000, 0, 238);
    has_contract(&rt, &ten, &voice, (2_000, 2_000, 2_000, 238));
    let camera = (30, 40_000, 123, 0, 1_538);
    has_contract(&rt, &ten, &camera, (12, 133, 3_990, 1_538));
    // 2 packets in 3 ms, at least 2 ms apart: the gap alone says more
    let apart = (2, 3_000, 2_000, 0, 84);
    has_contract(&rt, &ten, &apart, (200, 200, 200, 84));
    let none = (0, 3_000, 2_000, 0, 84);
    is_no_contract(&rt, &ten, &none, BadStream::Packets);
    let late = (1, 2_000, 2_000, 1_995, 84);
    let gap = BadStream::Gap(Misfit::ShorterTick(microseconds(5)));
    is_no_contract(&rt, &ten, &late, gap);
    Ok(())
}

// 204.8 bits a tick: 25 bytes are 2.3 percent less, and 204 bits 0.4 percent
fn keep_a_rate(rt: &impl Abort) -> Result<(), Fail> {
    let rate = Rate::parse("2.048 Mbit/s").ok().ok_or("rate")?;
    let of_bytes = scale_of(100, 1)?;
    let of_bits = Scale::new(microseconds(100), Size { bits: 1 }).ok_or("scale")?;
    assert!(rt; of_bytes.keeps_rate(rate, 40));
    assert!(rt; !of_bytes.keeps_rate(rate, 100));
    assert!(rt; of_bits.keeps_rate(rate, 100));
    Ok(())
}

// 97 units of 16 bytes are 0.9 percent more, and 49 of 32 bytes are 2 percent more
fn keep_a_size(rt: &impl Abort) -> Result<(), Fail> {
    let frame = bytes(1_538);
    let (sixteen, double) = (scale_of(100, 16)?, scale_of(100, 32)?);
    assert!(rt; sixteen.keeps_size(frame, 100));
    assert!(rt; !double.keeps_size(frame, 100));
    Ok(())
}

// 2.01 ms are 200 ticks of 10 us, and 99 of 20 us; 1.1 s are 110,000 ticks of 10 us
fn keep_times(rt: &impl Abort) -> Result<(), Fail> {
    let wanted = microseconds(2_010);
    let (ten, twenty) = (scale()?, scale_of(20, 1)?);
    assert!(rt; ten.keeps_delay(wanted, 100));
    assert!(rt; !twenty.keeps_delay(wanted, 100));
    assert!(rt; ten.fits_run(microseconds(1_100_000), 4));
    assert!(rt; !ten.fits_run(microseconds(1_100_000), 5));
    Ok(())
}

/// What scales keep but for a part: a telephone trunk's rate, an Ethernet frame's size, a wanted delay, and a run.
#[test]
fn what_scales_keep_of_numbers(rt: HostRuntime) -> Result<(), Fail> {
    keep_a_rate(&rt)?;
    keep_a_size(&rt)?;
    keep_times(&rt)
}

#[test]
fn the_coarsest_scale_is_tried_first(rt: HostRuntime) -> Result<(), Fail> {
    let scales = tried_scales(rt.alloc())?;
    is_due(&rt, &scales.len(), &176);
    let first = scales.first().ok_or("first")?;
    is_due(&rt, &first.tick(), &microseconds(10_000));
    is_due(&rt, &first.unit(), &bytes(64));
    Ok(())
}
