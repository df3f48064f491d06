// Prints what the rate table's checks, look-ups and groups answer at their edges, and what preparing makes of a table.
ghost use Rattle.std.specs.Prelude.{◌<◌};

use crate::preparing;
use basics::Duration;
use basics::refusal::number_refused;
use rates::Cell;
use std::io;
use test_support::lists::counting;
use test_support::print::{put, put_next};

// A table's length, and its check with cell 0, 1, 63, 64, 255, 256, 1,023, 1,024 and 2^32 - 1.
fn put_checks(rt: &impl Print, table: &[u32]) -> io::Result<()> {
    put(rt, b"length")?;
    put_next(rt, table.len() as u64)?;
    put(rt, b" checks")?;
    for cell in [0, 1, 63, 64, 255, 256, 1023, 1024, u32::MAX] {
        put_next(rt, number_refused(rates::check(table, Cell(cell))) as u64)?;
    }
    put(rt, b"\n")
}

// The checks of the first `count` numbers of a table.
fn put_start(rt: &impl Print, table: &[u32], count: usize) -> io::Result<()> {
    match table.get(..count) {
        Some(start) => put_checks(rt, start),
        None => Ok(()),
    }
}

// The checks of tables of no cell, 1 cell, 64, 65 and 257 cells, and of one number less or more than a cell.
fn put_lengths(rt: &impl Print, table: &[u32; 981951]) -> io::Result<()> {
    for count in [0, 957, 958, 959, 61312, 62270, 246206] {
        put_start(rt, table, count)?;
    }
    Ok(())
}

// The same where all rates are 0 but the recovery rate at a place and the death rate of the same cell and duration.
fn put_tables(
    rt: &impl Print,
    table: &mut [u32; 981951],
    place: usize,
    recovery: u32,
    death: u32,
) -> io::Result<()>
    requires { place < 981471 }
{
    put(rt, b"place")?;
    put_next(rt, place as u64)?;
    put_next(rt, recovery as u64)?;
    put_next(rt, death as u64)?;
    put(rt, b"\n")?;
    table[place] = recovery;
    table[place + 479] = death;
    put_lengths(rt, table)?;
    table[place] = 0;
    table[place + 479] = 0;
    Ok(())
}

// The checks of tables of 1,024 and 1,025 cells.
fn put_most(rt: &impl Print, table: &[u32; 981951]) -> io::Result<()> {
    put_start(rt, table, 980992)?;
    put_start(rt, table, 981950)
}

// The recovery and the death rate of a cell at a duration.
fn put_rates(rt: &impl Print, table: &[u32], cell: u32, duration: u32) -> io::Result<()> {
    put_next(
        rt,
        rates::recovery(table, Cell(cell), Duration(duration)) as u64,
    )?;
    put_next(
        rt,
        rates::death(table, Cell(cell), Duration(duration)) as u64,
    )
}

fn put_cell(rt: &impl Print, table: &[u32], cell: u32) -> io::Result<()> {
    put(rt, b"cell")?;
    put_next(rt, cell as u64)?;
    put(rt, b" rates")?;
    for duration in [0, 1, 2, 3, 480, 481, u32::MAX] {
        put_rates(rt, table, cell, duration)?;
    }
    put(rt, b"\n")
}

// The groups of the last duration before each cut and of the first after it.
fn put_groups(rt: &impl Print) -> io::Result<()> {
    put(rt, b"groups")?;
    for duration in [0, 1, 3, 4, 24, 25, 60, 61, 120, 121, u32::MAX] {
        put_next(rt, rates::group(Duration(duration)) as u64)?;
    }
    put(rt, b"\n")
}

// The last durations of the groups on both sides of each cut.
fn put_lasts(rt: &impl Print) -> io::Result<()> {
    put(rt, b"lasts")?;
    for duration in [0, 1, 3, 4, 24, 25, 60, 61, 120, 121, u32::MAX, u32::MAX] {
        put_next(rt, rates::group_last(Duration(duration)).0 as u64)?;
    }
    put(rt, b"\n")
}

// The table is the only one of its size: two of them, 3.9 MB each, don't fit a stack of 8 MB.
fn put_all_tables(rt: &impl Print, table: &mut [u32; 981951]) -> io::Result<()> {
    // Together 1,000,000: no table is refused for a rate.
    put_tables(rt, table, 0, 600000, 400000)?;
    // One more, only at duration 2 of cell 0; only at duration 480.
    put_tables(rt, table, 0, 600000, 400001)?;
    put_tables(rt, table, 478, 400001, 600000)?;
    // Only in cell 1, by a sum that would be 0 in 32 bits; only at duration 480 of cell 63.
    put_tables(rt, table, 958, 4294967295, 1)?;
    put_tables(rt, table, 60832, 0, 1000001)?;
    // Only in cell 256, whose low byte is cell 0's.
    put_tables(rt, table, 245248, 0, 1000001)?;
    put_most(rt, table)?;
    preparing::put_most(rt, table)
}

pub(crate) fn tables(rt: &impl Print) -> io::Result<()> {
    put_all_tables(rt, &mut [0u32; 981951])?;
    let table = counting();
    for cell in [0, 1, 2, 255, 256, u32::MAX] {
        put_cell(rt, &table, cell)?;
    }
    put_groups(rt)?;
    put_lasts(rt)?;
    preparing::put_preparing(rt)?;
    preparing::put_falling(rt)
}
