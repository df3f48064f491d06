// z, m and T at the edges of each rule and check: from C and E for every group, then from a study's sums. Then the counts that reach a
// wanted T.
use basics::refusal::Refusal;
use std::io;
use test_support::numbers::bits;
use test_support::print::{put, put_named, put_signed};
use valuation::GroupFactor;
use valuation::factor::factor;
use valuation::study_factor::study_factor;
use valuation::wanted_count::wanted_count;

// The ends of E's type, and the largest count.
const MOST: i64 = i64::MAX;

const LEAST: i64 = i64::MIN;

const FULL: u32 = u32::MAX;

// The same as a count of a study.
const WORD: i64 = 4294967295;

// The answer, after the group.
fn line(rt: &impl Print, group: u8, answer: Result<GroupFactor, Refusal>) -> io::Result<()> {
    put_named(rt, b" group ", group as u64)?;
    match answer {
        Ok(f) => {
            put_named(rt, b": z ", f.z as u64)?;
            put_named(rt, b" m ", f.m as u64)?;
            put_named(rt, b" T ", f.t)?;
        }
        Err(refusal) => put_named(rt, b": refused ", u8::from(refusal) as u64)?,
    }
    put(rt, b"\n")
}

fn of_group(rt: &impl Print, group: u8, terminations: u32, expected: i64) -> io::Result<()> {
    put_named(rt, b"C ", terminations as u64)?;
    line(rt, group, factor(group, terminations, expected))
}

fn groups(rt: &impl Print, terminations: u32, expected: i64) -> io::Result<()> {
    for group in [0, 1, 2, 3, 4, 5, 6, 255] {
        of_group(rt, group, terminations, expected)?;
    }
    Ok(())
}

// A line with E.
fn head(rt: &impl Print, word: &[u8], expected: i64) -> io::Result<()> {
    put(rt, word)?;
    put_signed(rt, bits(expected))?;
    put(rt, b"\n")
}

fn counts(rt: &impl Print, expected: i64) -> io::Result<()> {
    head(rt, b"E ", expected)?;
    for terminations in [
        0, 1, 2, 1000, 4999, 5000, 5001, 499999, 500000, 500001, FULL,
    ] {
        groups(rt, terminations, expected)?;
    }
    Ok(())
}

// E about 0, about each group's full z, at the bounds of a study's sums, and at the ends of its type.
fn of_counts(rt: &impl Print) -> io::Result<()> {
    for expected in [
        LEAST,
        -1,
        0,
        1,
        6300000,
        9450000,
        24750000000,
        50999999999,
        51000000000,
        62999999999,
        63000000000,
        74999999999,
        75000000000,
        98999999999,
        99000000000,
        27000000000000000,
        54000000000000000,
        MOST,
    ] {
        counts(rt, expected)?;
    }
    Ok(())
}

// Sums with the counts and expected sums of one group at its places; every other number is 1.
fn sums_of(group: u8, counts: [i64; 5], recoveries: i64, deaths: i64) -> [i64; 80] {
    let mut sums = [1; 80];
    if (1..=5).contains(&group) {
        let at = 8 * (group as usize - 1);
        sums[at + 1..at + 6].copy_from_slice(&counts);
        sums[at + 6] = recoveries;
        sums[at + 7] = deaths;
    }
    sums
}

fn of_sums(
    rt: &impl Print,
    case: u64,
    group: u8,
    closings: [i64; 5],
    recoveries: i64,
    deaths: i64,
) -> io::Result<()> {
    put_named(rt, b"case ", case)?;
    line(
        rt,
        group,
        study_factor(&sums_of(group, closings, recoveries, deaths), group),
    )
}

// Each of the five counts alone.
fn alone(rt: &impl Print, n: u32, group: u8) -> io::Result<()> {
    put_named(rt, b"one count ", n as u64)?;
    put(rt, b"\n")?;
    let n = i64::from(n);
    let each = [
        [n, 0, 0, 0, 0],
        [0, n, 0, 0, 0],
        [0, 0, n, 0, 0],
        [0, 0, 0, n, 0],
        [0, 0, 0, 0, n],
    ];
    for (case, closings) in (1..).zip(each) {
        of_sums(rt, case, group, closings, 6000000000, 3000000000)?;
    }
    Ok(())
}

// C about 500,000, and past 32 bits.
fn together(rt: &impl Print) -> io::Result<()> {
    put(rt, b"counts together\n")?;
    of_sums(rt, 1, 2, [300, 7, 0, 0, 0], 6000000000, 3000000000)?;
    of_sums(rt, 2, 2, [7, 300, WORD, WORD, WORD], 6000000000, 3000000000)?;
    of_sums(rt, 3, 2, [250000, 250000, WORD, WORD, WORD], 1, 0)?;
    of_sums(rt, 4, 2, [250001, 250000, 0, 0, 0], 1, 0)?;
    of_sums(rt, 5, 2, [250000, 250001, 0, 0, 0], 1, 0)?;
    of_sums(rt, 6, 2, [WORD, 1, 0, 0, 0], 1, 0)?;
    of_sums(rt, 7, 2, [1, WORD, 0, 0, 0], 1, 0)?;
    of_sums(rt, 8, 2, [WORD, WORD, WORD, WORD, WORD], 1, 0)?;
    of_sums(rt, 9, 1, [WORD, WORD, 0, 0, 0], MOST, MOST)?;
    of_sums(rt, 10, 0, [0, 0, 0, 0, 0], 0, 0)?;
    of_sums(rt, 11, 6, [0, 0, 0, 0, 0], 0, 0)?;
    of_sums(rt, 12, 255, [WORD, WORD, WORD, WORD, WORD], LEAST, LEAST)
}

// Both expected sums from end to end.
fn sums(rt: &impl Print, group: u8) -> io::Result<()> {
    put(rt, b"expected sums\n")?;
    let closings = [250000, 240000, 3, 4, 5];
    let pairs = [
        (MOST, MOST),
        (MOST, LEAST),
        (LEAST, MOST),
        (LEAST, LEAST),
        (MOST, 0),
        (0, MOST),
        (LEAST, 0),
        (0, LEAST),
        (MOST, 1),
        (1, MOST),
        (LEAST, -1),
        (-1, LEAST),
        (MOST, -1),
        (-1, MOST),
        (0, 0),
        (-1, 1),
        (1, -1),
        (-1, 2),
        (2, -1),
        (49500000000, 49500000000),
        (49500000000, 49499999999),
        (-1000000000, 100000000000),
        (100000000000, -1000000001),
        (27000000000000000, 27000000000000000),
    ];
    for (case, (recoveries, deaths)) in (1..).zip(pairs) {
        of_sums(rt, case, group, closings, recoveries, deaths)?;
    }
    Ok(())
}

// The printed table's groups.
fn printed(rt: &impl Print) -> io::Result<()> {
    put(rt, b"printed table\n")?;
    of_sums(rt, 1, 1, [0, 0, 0, 0, 0], 0, 0)?;
    of_sums(rt, 2, 2, [0, 0, 0, 0, 0], 6300000, 3150000)?;
    of_sums(rt, 3, 3, [1, 0, 0, 0, 0], 4200000, 2100000)?;
    of_sums(rt, 4, 4, [0, 0, 0, 0, 0], 0, 0)?;
    of_sums(rt, 5, 5, [0, 0, 0, 0, 0], 0, 0)
}

// The count that reaches a wanted T.
fn count(rt: &impl Print, group: u8, expected: i64, wanted: u64) -> io::Result<()> {
    put_named(rt, b"wanted ", wanted)?;
    put_named(rt, b" group ", group as u64)?;
    match wanted_count(group, expected, wanted) {
        Ok(c) => put_named(rt, b": count ", c as u64)?,
        Err(refusal) => put_named(rt, b": refused ", u8::from(refusal) as u64)?,
    }
    put(rt, b"\n")
}

fn group_counts(rt: &impl Print, expected: i64, wanted: u64) -> io::Result<()> {
    for group in 1..=5 {
        count(rt, group, expected, wanted)?;
    }
    Ok(())
}

fn wanted_counts(rt: &impl Print, expected: i64) -> io::Result<()> {
    head(rt, b"wanted, E ", expected)?;
    for wanted in [
        0,
        1,
        500000,
        900000,
        999999,
        1000000,
        1000001,
        1300000,
        5000000,
        u64::MAX,
    ] {
        group_counts(rt, expected, wanted)?;
    }
    Ok(())
}

// T about those of 499,999 and of 500,000 closings.
fn about_most(rt: &impl Print, group: u8, before: u64, most: u64) -> io::Result<()> {
    count(rt, group, 99000000000, before)?;
    count(rt, group, 99000000000, before.wrapping_add(1))?;
    count(rt, group, 99000000000, most)?;
    count(rt, group, 99000000000, most.wrapping_add(1))
}

fn bad_group(rt: &impl Print, group: u8) -> io::Result<()> {
    count(rt, group, 99000000000, 0)?;
    count(rt, group, -1, 1000000)?;
    count(rt, group, 99000000000, u64::MAX)
}

fn wanted(rt: &impl Print) -> io::Result<()> {
    for expected in [
        LEAST,
        0,
        1,
        9450000,
        24750000000,
        98999999999,
        99000000000,
        27000000000000000,
        MOST,
    ] {
        wanted_counts(rt, expected)?;
    }
    put(rt, b"wanted of 500,000\n")?;
    for (group, before, most) in [
        (2, 146527888, 146528181),
        (3, 146587131, 146587424),
        (4, 146620312, 146620606),
        (5, 146657130, 146657575),
    ] {
        about_most(rt, group, before, most)?;
    }
    put(rt, b"wanted, bad group\n")?;
    for group in [0, 6, 255] {
        bad_group(rt, group)?;
    }
    Ok(())
}

pub(crate) fn factors(rt: &impl Print) -> io::Result<()> {
    of_counts(rt)?;
    alone(rt, 307, 2)?;
    alone(rt, 500000, 3)?;
    alone(rt, FULL, 4)?;
    together(rt)?;
    for group in 1..=5 {
        sums(rt, group)?;
    }
    printed(rt)?;
    wanted(rt)
}
