// The weighted set (document 02, No. 7): what a claim weighs, the parts' weighted sums, and their bounds.
use crate::claims::claim;
use crate::edges::{with_number, with_sum};
use crate::figures::{figures, put_groups, weighted_figures, with_weighted};
use crate::studies::opened;
use basics::refusal::number_in;
use claim_months::Claim;
use std::io;
use study::Study;
use test_support::lists::same;
use test_support::numbers::bits;
use test_support::print::{put, put_next, put_next_signed, put_yes};

// 200 times the largest sums that a study takes by count, and one more, above and below 0.
const THIRTIETHS: [i64; 4] = [5400000000000, 5400000000001, -5400000000000, -5400000000001];

const EXPECTED: [i64; 4] = [
    5400000000000000000,
    5400000000000000001,
    -5400000000000000000,
    -5400000000000000001,
];

pub(crate) fn weights(rt: &impl Print, table: &[u32; 1916]) -> io::Result<()> {
    for benefit in [0, 1, 2, 200, 201, 255] {
        alone(rt, benefit, table)?;
    }
    parts(rt, table)?;
    bounds(rt, table)?;
    for sum in [100000000, 100000001, -1] {
        closing(rt, sum, table)?;
    }
    Ok(())
}

// A claim of the list with a benefit.
pub(crate) fn weighing(place: u32, benefit: u8) -> Claim {
    let mut found = claim(place);
    found.benefit = benefit;
    found
}

// The second claim alone, and its figures in both sets.
fn alone(rt: &impl Print, benefit: u8, table: &[u32; 1916]) -> io::Result<()> {
    put(rt, b"benefit")?;
    put_next(rt, benefit as u64)?;
    let answer = opened(20090101, 20171231).add(weighing(1, benefit), table);
    put(rt, b" refused")?;
    put_next(rt, number_in(answer.refused) as u64)?;
    put(rt, b"\n")?;
    let study = answer.study;
    if answer.refused.is_none() {
        put_groups(rt, &figures(study))?;
        put_groups(rt, &weighted_figures(study))?;
    }
    Ok(())
}

pub(crate) fn with_claim(study: Study, place: u32, benefit: u8, table: &[u32; 1916]) -> Study {
    study.add(weighing(place, benefit), table).study
}

// Three claims that weigh 3, 200 and 1 in a window.
fn weighed(first: u32, last: u32, table: &[u32; 1916]) -> Study {
    let one = with_claim(opened(first, last), 1, 3, table);
    let two = with_claim(one, 2, 200, table);
    with_claim(two, 3, 0, table)
}

// Their weighted sums in a window and its two parts.
fn parts(rt: &impl Print, table: &[u32; 1916]) -> io::Result<()> {
    let whole = weighed(20090101, 20171231, table);
    let a = weighed(20090101, 20110215, table);
    let b = weighed(20110216, 20171231, table);
    put(rt, b"weighted\n")?;
    put_groups(rt, &weighted_figures(whole))?;
    put(rt, b"weighted parts equal")?;
    let total = with_weighted(weighted_figures(a), b);
    put_yes(rt, same(&total, &weighted_figures(whole)))?;
    put(rt, b"\n")
}

// Adds the second claim with a benefit of 200, and prints the answer and whether the study came back as it was.
fn show(rt: &impl Print, before: Study, table: &[u32; 1916]) -> io::Result<()> {
    let answer = before.add(weighing(1, 200), table);
    put(rt, b" refused")?;
    put_next(rt, number_in(answer.refused) as u64)?;
    let after = answer.study;
    if before == after {
        put(rt, b" unchanged\n")?;
    } else {
        put(rt, b" changed\n")?;
        put_groups(rt, &weighted_figures(after))?;
    }
    Ok(())
}

fn bounds(rt: &impl Print, table: &[u32; 1916]) -> io::Result<()> {
    about(rt, 0, THIRTIETHS, table)?;
    about(rt, 1, EXPECTED, table)?;
    about(rt, 2, EXPECTED, table)
}

fn about(rt: &impl Print, field: u8, sums: [i64; 4], table: &[u32; 1916]) -> io::Result<()> {
    for sum in sums {
        bound(rt, field, sum, table)?;
    }
    Ok(())
}

// A weighted sum of group 3 at a bound: thirtieths at field 0, expected recoveries at 1, expected deaths at 2.
fn bound(rt: &impl Print, field: u8, sum: i64, table: &[u32; 1916]) -> io::Result<()> {
    put(rt, b"weighted bound")?;
    put_next(rt, field as u64)?;
    put_next_signed(rt, bits(sum))?;
    show(rt, with_sum(field, 7, sum), table)
}

// The weighted closing sum of group 3 under recovery.
fn closing(rt: &impl Print, sum: i64, table: &[u32; 1916]) -> io::Result<()> {
    put(rt, b"weighted closings")?;
    put_next_signed(rt, bits(sum))?;
    show(rt, with_number(57, sum), table)
}
