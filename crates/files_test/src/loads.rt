// Steps of loads: the first and the last claims of a few seeds, and the edges of seed, size and claim number.
use calendar::Date;
use claim_months::Claim;
use load::load_claim;
use std::io;
use test_support::print::{put, put_named};

fn date(rt: &impl Print, word: &[u8], date: Date) -> io::Result<()> {
    put_named(rt, word, date.year as u64)?;
    put_named(rt, b"-", date.month as u64)?;
    put_named(rt, b"-", date.day as u64)
}

fn put_claim(rt: &impl Print, claim: Claim) -> io::Result<()> {
    put_named(rt, b": claim ", claim.number as u64)?;
    date(rt, b" disability ", claim.disability)?;
    date(rt, b" bcd ", claim.bcd)?;
    date(rt, b" termination ", claim.termination)?;
    date(rt, b" maximum ", claim.maximum)?;
    put_named(rt, b" status ", claim.status as u64)?;
    put_named(rt, b" code ", claim.code as u64)?;
    put_named(rt, b" cell ", claim.cell as u64)?;
    put_named(rt, b" benefit ", claim.benefit as u64)
}

// A step and its answer.
fn show(rt: &impl Print, x: u32, size: u32, due: u32) -> io::Result<()> {
    put_named(rt, b"x ", x as u64)?;
    put_named(rt, b" size ", size as u64)?;
    put_named(rt, b" number ", due as u64)?;
    match load_claim(x, size, due) {
        Ok(step) => {
            put_claim(rt, step.claim)?;
            put_named(rt, b" x ", step.x as u64)?;
        }
        Err(refusal) => put_named(rt, b": refused ", u8::from(refusal) as u64)?,
    }
    put(rt, b"\n")
}

// The x that a step reaches; a refused one stays where it is.
fn reached(x: u32, size: u32, due: u32) -> u32 {
    load_claim(x, size, due).map_or(x, |step| step.x)
}

// The first claims of a load, and its last ones.
fn ends(rt: &impl Print, seed: u32, size: u32) -> io::Result<()> {
    let mut x = seed;
    for due in 1..size {
        if due <= 4 {
            show(rt, x, size, due)?;
        }
        x = reached(x, size, due);
    }
    show(rt, x, size, size)
}

fn of_size(rt: &impl Print, size: u32) -> io::Result<()> {
    for seed in [1, 2, 48271, 1073741824, 2147483646] {
        ends(rt, seed, size)?;
    }
    Ok(())
}

// Draws at their ends: the first and the last disability day, EP 15 and 365, closed on BCD and 3,999 days after it; and nearly the latest day
// that a load has.
fn drawn(rt: &impl Print) -> io::Result<()> {
    for x in [20000, 28369, 1412, 1532, 13462, 10852, 428558050] {
        show(rt, x, 1, 1)?;
    }
    Ok(())
}

// Each code of closed claims, and the same draws of open ones.
fn codes(rt: &impl Print) -> io::Result<()> {
    for x in 2..11 {
        show(rt, x, 1, 1)?;
    }
    Ok(())
}

fn seeds(rt: &impl Print, size: u32, due: u32) -> io::Result<()> {
    for x in [0, 1, 2147483646, 2147483647, 2147483648, u32::MAX] {
        show(rt, x, size, due)?;
    }
    Ok(())
}

fn numbers(rt: &impl Print, x: u32, size: u32) -> io::Result<()> {
    for due in [0, 1, 2, 499999, 500000, 500001, u32::MAX] {
        show(rt, x, size, due)?;
    }
    Ok(())
}

fn edges(rt: &impl Print) -> io::Result<()> {
    seeds(rt, 500000, 1)?;
    seeds(rt, 0, 1)?;
    for size in [0, 1, 499999, 500000, 500001, u32::MAX] {
        numbers(rt, 7, size)?;
    }
    numbers(rt, 0, 500000)
}

pub(crate) fn loads(rt: &impl Print) -> io::Result<()> {
    of_size(rt, 1)?;
    of_size(rt, 2)?;
    of_size(rt, 300)?;
    drawn(rt)?;
    codes(rt)?;
    edges(rt)
}
