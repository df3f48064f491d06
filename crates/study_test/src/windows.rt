// Runs studies of one list of claims over windows and their parts, each in an order of its own. Prints every figure, whether the parts'
// figures add up to the undivided window's.
use crate::claims::{CLAIMS, claim};
use crate::figures::{figures, put_groups, with_study};
use crate::studies::{after, opened};
use std::io;
use study::Study;
use test_support::lists::same;
use test_support::print::{put, put_next, put_yes};

pub(crate) fn windows(rt: &impl Print, table: &[u32; 1916]) -> io::Result<()> {
    divided(rt, table)?;
    long(rt, table)?;
    negative(rt, table)?;
    changed(rt, table)
}

// The study of the list between two dates, with its claims in steps from a start, printed.
fn run(
    rt: &impl Print,
    first: u32,
    last: u32,
    start: u32,
    step: u32,
    table: &[u32; 1916],
) -> io::Result<Study> {
    put_window(rt, first, last)?;
    put(rt, b" claims")?;
    let study = list_added(rt, opened(first, last), start, step, table)?;
    put(rt, b"\ntaken")?;
    put_next(rt, study.taken as u64)?;
    put(rt, b"\n")?;
    put_groups(rt, &figures(study))?;
    Ok(study)
}

fn list_added(
    rt: &impl Print,
    study: Study,
    start: u32,
    step: u32,
    table: &[u32; 1916],
) -> io::Result<Study> {
    let mut all = study;
    let mut at = start;
    for _ in 0..CLAIMS {
        all = added(rt, all, at % CLAIMS, table)?;
        at = at.wrapping_add(step);
    }
    Ok(all)
}

fn put_window(rt: &impl Print, first: u32, last: u32) -> io::Result<()> {
    put(rt, b"study")?;
    put_next(rt, first as u64)?;
    put_next(rt, last as u64)
}

fn added(rt: &impl Print, study: Study, place: u32, table: &[u32; 1916]) -> io::Result<Study> {
    after(rt, b" ", place, study.add(claim(place), table))
}

// The undivided window in three orders; its years; two parts, the first up to the day before a settlement; four parts.
fn divided(rt: &impl Print, table: &[u32; 1916]) -> io::Result<()> {
    let whole = figures(run(rt, 20090101, 20171231, 0, 1, table)?);
    let back = figures(run(rt, 20090101, 20171231, 22, 22, table)?);
    let leap = figures(run(rt, 20090101, 20171231, 5, 7, table)?);
    put(rt, b"orders equal")?;
    put_yes(rt, same(&whole, &back))?;
    put_yes(rt, same(&whole, &leap))?;
    put(rt, b"\n")?;
    compare(rt, b"years", years(rt, table)?, whole)?;
    compare(rt, b"two parts", two_parts(rt, table)?, whole)?;
    compare(rt, b"four parts", four_parts(rt, table)?, whole)
}

fn years(rt: &impl Print, table: &[u32; 1916]) -> io::Result<[u64; 40]> {
    let mut total = [0u64; 40];
    for year in 2009..2018 {
        let study = run(
            rt,
            year * 10000 + 101,
            year * 10000 + 1231,
            year,
            year - 2008,
            table,
        )?;
        // The borrow checker covers no call whose array is put into `total` itself.
        let next = with_study(total, study);
        total = next;
    }
    Ok(total)
}

fn two_parts(rt: &impl Print, table: &[u32; 1916]) -> io::Result<[u64; 40]> {
    let a = run(rt, 20090101, 20110215, 1, 2, table)?;
    let b = run(rt, 20110216, 20171231, 2, 3, table)?;
    Ok(with_study(figures(a), b))
}

fn four_parts(rt: &impl Print, table: &[u32; 1916]) -> io::Result<[u64; 40]> {
    let a = run(rt, 20090101, 20090101, 3, 4, table)?;
    let b = run(rt, 20090102, 20120229, 4, 6, table)?;
    let half = with_study(figures(a), b);
    let c = run(rt, 20120301, 20161230, 6, 8, table)?;
    let d = run(rt, 20161231, 20171231, 7, 10, table)?;
    Ok(with_study(with_study(half, c), d))
}

// The whole calendar, and three parts of it.
fn long(rt: &impl Print, table: &[u32; 1916]) -> io::Result<()> {
    let whole = run(rt, 19500101, 20991231, 8, 11, table)?;
    let a = run(rt, 19500101, 20081231, 9, 12, table)?;
    let b = run(rt, 20090101, 20171231, 0, 1, table)?;
    let c = run(rt, 20180101, 20991231, 10, 13, table)?;
    let total = with_study(with_study(figures(a), b), c);
    compare(rt, b"long", total, figures(whole))
}

fn compare(rt: &impl Print, name: &[u8], total: [u64; 40], whole: [u64; 40]) -> io::Result<()> {
    put(rt, name)?;
    put(rt, b" total\n")?;
    put_groups(rt, &total)?;
    put(rt, name)?;
    put(rt, b" undivided\n")?;
    put_groups(rt, &whole)?;
    put(rt, name)?;
    put(rt, b" equal")?;
    put_yes(rt, same(&total, &whole))?;
    put(rt, b"\n")
}

// One claim alone, settled on the second part's first day: 8 and -1 thirtieths, and together 7.
fn negative(rt: &impl Print, table: &[u32; 1916]) -> io::Result<()> {
    alone(rt, 20090101, 20110215, 3, table)?;
    alone(rt, 20110216, 20171231, 3, table)?;
    alone(rt, 20090101, 20171231, 3, table)
}

// The claim past the list, closed at the change of definition: a full last month, and a recovery.
fn changed(rt: &impl Print, table: &[u32; 1916]) -> io::Result<()> {
    alone(rt, 20090101, 20171231, CLAIMS, table)
}

fn alone(
    rt: &impl Print,
    first: u32,
    last: u32,
    place: u32,
    table: &[u32; 1916],
) -> io::Result<()> {
    put_window(rt, first, last)?;
    put(rt, b" claim")?;
    let study = added(rt, opened(first, last), place, table)?;
    put(rt, b"\n")?;
    put_groups(rt, &figures(study))
}
