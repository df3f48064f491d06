// Prints what preparing makes of a table of 65 cells, and the checks and sums of a table of either kind.
use basics::Duration;
use basics::refusal::number_refused;
use rates::prepared::{check_of, prepare, rate_table, rates_over};
use rates::{Cell, Kind};
use std::io;
use test_support::numbers::bits;
use test_support::print::{put, put_next};

// Preparing the first `count` numbers of a list: the count and the answer.
fn prepare_start(rt: &impl Print, list: &mut [u32], count: usize) -> io::Result<()> {
    if let Some(table) = list.get_mut(..count) {
        put_next(rt, count as u64)?;
        put_next(rt, number_refused(prepare(table)) as u64)?;
    }
    Ok(())
}

// The checks of the first `count` numbers of a list with the cells 0, 1, 64, 65, 1,023, 1,024 and the last number.
fn check_start(rt: &impl Print, kind: Kind, list: &[u32], count: usize) -> io::Result<()> {
    if let Some(table) = list.get(..count) {
        put(rt, b"checks")?;
        let looked_at = rate_table(kind, table);
        for cell in [0, 1, 64, 65, 1023, 1024, u32::MAX] {
            put_next(rt, number_refused(check_of(&looked_at, Cell(cell))) as u64)?;
        }
        put(rt, b"\n")?;
    }
    Ok(())
}

// The sums of the recovery and the death rates of a cell's part over some durations.
fn put_sum(rt: &impl Print, kind: Kind, part: &[u32], from: u32, months: u16) -> io::Result<()> {
    let sums = rates_over(kind, part, Duration(from), months);
    put_next(rt, bits(sums.recoveries))?;
    put_next(rt, bits(sums.deaths))
}

// Sums from before duration 2, up to 480 and past it.
fn put_sums(rt: &impl Print, kind: Kind, part: &[u32]) -> io::Result<()> {
    put(rt, b" sums")?;
    for (from, months) in [
        (2, 0),
        (0, 1),
        (2, 2),
        (3, 477),
        (2, 479),
        (2, 480),
        (480, 3),
        (481, 1),
        (u32::MAX, u16::MAX),
    ] {
        put_sum(rt, kind, part, from, months)?;
    }
    put(rt, b"\n")
}

// The sums of the numbers of a list from one up to before another, as a cell's part.
fn put_part(rt: &impl Print, kind: Kind, list: &[u32], from: usize, to: usize) -> io::Result<()> {
    if let Some(part) = list.get(from..to) {
        put(rt, b"part")?;
        put_next(rt, from as u64)?;
        put_next(rt, to as u64)?;
        put_sums(rt, kind, part)?;
    }
    Ok(())
}

// The sums of the first cell and the 65th, and of lists that aren't of 958 numbers.
fn put_parts(rt: &impl Print, kind: Kind, list: &[u32]) -> io::Result<()> {
    for (from, to) in [(0, 958), (61312, 62270), (0, 0), (0, 957), (0, 959)] {
        put_part(rt, kind, list, from, to)?;
    }
    Ok(())
}

fn put_table(rt: &impl Print, kind: Kind, table: &[u32; 62271], count: usize) -> io::Result<()> {
    check_start(rt, kind, table, count)?;
    put_parts(rt, kind, table)
}

// Numbers of the first, the second and the 65th cell, first and last of each kind of rates, and the mark.
fn put_numbers(rt: &impl Print, table: &[u32; 62271]) -> io::Result<()> {
    put(rt, b"numbers")?;
    for at in [
        0, 1, 477, 478, 479, 957, 958, 1436, 1915, 61312, 61790, 61791, 62269, 62270,
    ] {
        if let Some(number) = table.get(at) {
            put_next(rt, *number as u64)?;
        }
    }
    put(rt, b"\n")
}

// Lengths that aren't prepared, 65 cells that are, and the same once more.
fn put_lengths(rt: &impl Print, list: [u32; 62271]) -> io::Result<[u32; 62271]> {
    let mut table = list;
    put(rt, b"prepare")?;
    for count in [0, 1, 958, 960, 62271, 62271] {
        prepare_start(rt, &mut table, count)?;
    }
    put(rt, b"\n")?;
    Ok(table)
}

// The first cell of 65 and the last are sound, and the second is over 1,000,000 at duration 480.
pub(crate) fn put_preparing(rt: &impl Print) -> io::Result<()> {
    let mut table = [0u32; 62271];
    table[0] = 600000;
    table[1] = 300000;
    table[478] = 250000;
    table[479] = 400000;
    table[957] = 7;
    table[1436] = 400001;
    table[1915] = 600000;
    table[61312] = 1000000;
    table[61790] = 3;
    table[62269] = 5;
    put_table(rt, Kind::Plain, &table, 62270)?;
    check_start(rt, Kind::Prepared, &table, 62271)?;
    let after = put_lengths(rt, table)?;
    put_numbers(rt, &after)?;
    check_start(rt, Kind::Plain, &after, 62271)?;
    check_start(rt, Kind::Prepared, &after, 62270)?;
    put_table(rt, Kind::Prepared, &after, 62271)
}

// 1,025 cells, which aren't prepared, and 1,024, which are; then both with the mark 1.
pub(crate) fn put_most(rt: &impl Print, table: &mut [u32; 981951]) -> io::Result<()> {
    put(rt, b"prepare")?;
    prepare_start(rt, table, 981951)?;
    prepare_start(rt, table, 980993)?;
    put(rt, b"\n")?;
    table[981950] = 1;
    check_start(rt, Kind::Prepared, table, 980993)?;
    check_start(rt, Kind::Prepared, table, 981951)
}

// Numbers that are no running sums, as a cell of a prepared table: differences below 0.
pub(crate) fn put_falling(rt: &impl Print) -> io::Result<()> {
    let mut part = [0u32; 958];
    part[0] = 5;
    part[1] = 3;
    part[477] = 9;
    part[478] = 4;
    put(rt, b"falling")?;
    put_sum(rt, Kind::Prepared, &part, 3, 1)?;
    put_sum(rt, Kind::Prepared, &part, 479, 3)?;
    put(rt, b"\n")
}
