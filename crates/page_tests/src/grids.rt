//! A table of two rows in its three forms, and times, worked out by hand.
use answer_grids::{Answer, Cell, Column, Format, Grid, bytes_of, ticks_text, time_text};
use field_units::Time;
use std::alloc::{AllocError, Global};
use std::test::Fail;

// A column of each kind; the list is in data alone, and the pair in text alone.
fn columns(alloc: Global) -> Result<Vec<Column>, AllocError> {
    let mut columns = Vec::new(alloc);
    columns.push(Column::of_words("name", "name"))?;
    columns.push(Column::of_numbers("count", "count"))?;
    columns.push(Column::of_numbers("time", ""))?;
    columns.push(Column::of_words("list", "").in_data())?;
    columns.push(Column::of_words("", "pair").in_text())?;
    Ok(columns)
}

fn first_row(alloc: Global) -> Result<Vec<Cell>, AllocError> {
    let mut numbers = Vec::new(alloc);
    numbers.push(1)?;
    numbers.push(2)?;
    let mut cells = Vec::new(alloc);
    cells.push(Cell::text(alloc, "a")?)?;
    cells.push(Cell::Number(7))?;
    cells.push(Cell::text(alloc, "1 ms")?)?;
    cells.push(Cell::Numbers(numbers))?;
    cells.push(Cell::text(alloc, "7/12")?)?;
    Ok(cells)
}

// A name with a comma and a quote, and cells without anything.
fn second_row(alloc: Global) -> Result<Vec<Cell>, AllocError> {
    let mut cells = Vec::new(alloc);
    cells.push(Cell::text(alloc, "long, \"b\"")?)?;
    cells.push(Cell::number(Some(1_204)))?;
    cells.push(Cell::number(None))?;
    cells.push(Cell::Numbers(Vec::new(alloc)))?;
    cells.push(Cell::text(alloc, "x")?)?;
    Ok(cells)
}

fn answer(alloc: Global) -> Result<Answer, AllocError> {
    let mut rows = Vec::new(alloc);
    rows.push(first_row(alloc)?)?;
    rows.push(second_row(alloc)?)?;
    let mut lines = Vec::new(alloc);
    lines.push(String::from_str(alloc, "two rows")?)?;
    Ok(Answer {
        grid: Grid {
            columns: columns(alloc)?,
            rows,
        },
        shows_grid: true,
        lines,
        holds: true,
    })
}

fn text_in(alloc: Global, format: Format) -> Result<String, AllocError> {
    let answer = answer(alloc)?;
    let bytes = bytes_of(alloc, &answer, format)?;
    String::from_utf8_lossy(alloc, bytes.as_slice())
}

#[test]
fn columns_stand_below_one_another(rt: HostRuntime) -> Result<(), Fail> {
    let text = text_in(rt.alloc(), Format::Text)?;
    assert_eq!(rt;
        text.as_str(),
        "name       count        pair\na              7  1 ms  7/12\nlong, \"b\"   1204        x\ntwo rows\n"
    );
    Ok(())
}

#[test]
fn a_cell_with_a_comma_is_quoted(rt: HostRuntime) -> Result<(), Fail> {
    let text = text_in(rt.alloc(), Format::Csv)?;
    assert_eq!(rt;
        text.as_str(),
        "name,count,time,list\na,7,1 ms,1 2\n\"long, \"\"b\"\"\",1204,,\n"
    );
    Ok(())
}

#[test]
fn a_row_is_an_object(rt: HostRuntime) -> Result<(), Fail> {
    let text = text_in(rt.alloc(), Format::Json)?;
    assert_eq!(rt;
        text.as_str(),
        "{\"answer\":[\"two rows\"],\"rows\":[{\"count\":7,\"list\":[1,2],\"name\":\"a\",\"time\":\"1 ms\"},{\"count\":1204,\"list\":[],\"name\":\"long, \\\"b\\\"\",\"time\":null}],\"yes\":true}\n"
    );
    Ok(())
}

// A tick of 10 microseconds, of a third of one as far as picoseconds go, and of a picosecond; the last is the most that is multiplied.
#[test]
fn times_are_exact(rt: HostRuntime) -> Result<(), Fail> {
    let alloc = rt.alloc();
    for (ticks, picoseconds, due) in [
        (0, 10_000_000, "0 s"),
        (1, 10_000_000, "10 us"),
        (156, 10_000_000, "1.56 ms"),
        (100_000, 10_000_000, "1 s"),
        (3, 333_333, "999.999 ns"),
        (1, 1, "1 ps"),
        (u64::MAX, 1, "18446744.073709551615 s"),
        (u64::MAX, 10_000_000, "184467440737095.51615 s"),
        (
            u64::MAX,
            u64::MAX,
            "340282366920938463426481119.284349108225 s",
        ),
    ] {
        let text = time_text(alloc, ticks, Time { picoseconds })?;
        assert_eq!(rt; text.as_str(), due);
    }
    Ok(())
}

#[test]
fn ticks_and_their_time(rt: HostRuntime) -> Result<(), Fail> {
    let alloc = rt.alloc();
    let tick = Time {
        picoseconds: 10_000_000,
    };
    let one = ticks_text(alloc, 1, None)?;
    assert_eq!(rt; one.as_str(), "1 tick");
    let some = ticks_text(alloc, 156, Some(tick))?;
    assert_eq!(rt; some.as_str(), "156 ticks (1.56 ms)");
    Ok(())
}
