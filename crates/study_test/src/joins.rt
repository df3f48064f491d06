// Studies that no opening made, joined at the edges of the checks 1, 15 and 9.
ghost use Rattle.std.specs.Prelude.{◌<◌};

use crate::numbers::{numbers, put_same};
use crate::studies::study_of;
use basics::refusal::number_in;
use std::io;
use study::Study;
use test_support::numbers::bits;
use test_support::print::{put, put_next, put_next_signed};

// A bound, one more, both below zero, half the bound and one more than half.
const THIRTIETHS: [i64; 6] = [
    27000000000,
    27000000001,
    -27000000000,
    -27000000001,
    13500000000,
    13500000001,
];

const EXPECTED: [i64; 6] = [
    27000000000000000,
    27000000000000001,
    -27000000000000000,
    -27000000000000001,
    13500000000000000,
    13500000000000001,
];

const WEIGHTED_THIRTIETHS: [i64; 6] = [
    5400000000000,
    5400000000001,
    -5400000000000,
    -5400000000001,
    2700000000000,
    2700000000001,
];

const WEIGHTED_EXPECTED: [i64; 6] = [
    5400000000000000000,
    5400000000000000001,
    -5400000000000000000,
    -5400000000000000001,
    2700000000000000000,
    2700000000000000001,
];

pub(crate) fn joins(rt: &impl Print) -> io::Result<()> {
    windows(rt)?;
    claims(rt)?;
    counts(rt)?;
    // Thirtieths of group 3, expected recoveries of group 4, expected deaths of group 1, and the weighted ones.
    about(rt, b"thirtieths", 16, THIRTIETHS)?;
    about(rt, b"recoveries", 30, EXPECTED)?;
    about(rt, b"deaths", 7, EXPECTED)?;
    about(rt, b"weighted thirtieths", 56, WEIGHTED_THIRTIETHS)?;
    about(rt, b"weighted recoveries", 70, WEIGHTED_EXPECTED)?;
    about(rt, b"weighted deaths", 47, WEIGHTED_EXPECTED)
}

// A study of a window with claims taken and zero sums.
fn made(first: u32, last: u32, taken: u32) -> Study {
    study_of(first, last, taken, [0; 80])
}

// A study of ten days with one claim, and a number at a place of its sums.
// Kept: `place < 80`, here and below, as each call writes its place as a number.
fn with_number(place: usize, number: i64) -> Study
    requires { place < 80 }
{
    let mut study = made(0, 9, 1);
    study.sums[place] = number;
    study
}

// Joins two studies. Prints the number refused and whether the first study came back, or the claims taken and each set's four numbers.
fn show(rt: &impl Print, one: Study, other: Study) -> io::Result<()> {
    let answer = one.join(other);
    let after = numbers(answer.study);
    put(rt, b" refused")?;
    put_next(rt, number_in(answer.refused) as u64)?;
    if answer.refused.is_some() {
        put(rt, b" first")?;
        put_same(rt, &after, &numbers(one))?;
    } else {
        put_sums(rt, &after)?;
    }
    put(rt, b"\n")
}

fn put_sums(rt: &impl Print, list: &[u64; 83]) -> io::Result<()> {
    put(rt, b" taken")?;
    put_next_signed(rt, list[2])?;
    put(rt, b" sums")?;
    for figure in [list[19], list[40], list[33], list[10]] {
        put_next_signed(rt, figure)?;
    }
    put(rt, b" weighted")?;
    for figure in [list[59], list[80], list[73], list[50]] {
        put_next_signed(rt, figure)?;
    }
    Ok(())
}

// Bad windows, unequal ones and equal ones, with claims taken in the second that alone are refused 9 or not.
fn windows(rt: &impl Print) -> io::Result<()> {
    window(rt, 100, 99, 0, 9, 0)?;
    window(rt, 0, 9, 100, 99, 0)?;
    window(rt, 0, 54787, 0, 54787, 0)?;
    window(rt, 0, 9, 54787, 54787, 500001)?;
    window(rt, 0, 9, 1, 9, 0)?;
    window(rt, 0, 9, 0, 8, 0)?;
    window(rt, 0, 9, 0, 8, 500001)?;
    window(rt, 0, 9, 0, 9, 500001)?;
    window(rt, 0, 54786, 0, 54786, 0)?;
    window(rt, 54786, 54786, 54786, 54786, 500000)
}

fn window(
    rt: &impl Print,
    first: u32,
    last: u32,
    other_first: u32,
    other_last: u32,
    taken: u32,
) -> io::Result<()> {
    put(rt, b"windows")?;
    for number in [first, last, other_first, other_last, taken] {
        put_next(rt, number as u64)?;
    }
    show(
        rt,
        made(first, last, 0),
        made(other_first, other_last, taken),
    )
}

// Up to 500,000 claims together, past them, and past 32 bits.
fn claims(rt: &impl Print) -> io::Result<()> {
    for (one, other) in [
        (250000, 250000),
        (250000, 250001),
        (500000, 0),
        (0, 500000),
        (500000, 1),
        (500001, 0),
        (0, 500001),
        (u32::MAX, 1),
        (1, u32::MAX),
        (u32::MAX, u32::MAX),
    ] {
        taken(rt, one, other)?;
    }
    Ok(())
}

fn taken(rt: &impl Print, one: u32, other: u32) -> io::Result<()> {
    put(rt, b"claims")?;
    put_next(rt, one as u64)?;
    put_next(rt, other as u64)?;
    show(rt, made(0, 9, one), made(0, 9, other))
}

fn counts(rt: &impl Print) -> io::Result<()> {
    count(rt, 300000, 200000)?;
    count(rt, 300000, 200001)?;
    count(rt, 500001, 0)?;
    count(rt, 0, 500001)?;
    count(rt, 4294967295, 1)?;
    weighted_count(rt, 60000000, 40000000)?;
    weighted_count(rt, 60000000, 40000001)?;
    weighted_count(rt, 100000001, 0)?;
    weighted_count(rt, 0, 100000001)?;
    weighted_count(rt, 4294967295, 1)?;
    count(rt, -1, 1)?;
    count(rt, 1, -1)?;
    weighted_count(rt, -1, 1)?;
    weighted_count(rt, 1, -1)
}

// A count of limits in group 5.
fn count(rt: &impl Print, one: i64, other: i64) -> io::Result<()> {
    sum(rt, b"counts", 37, one, other)
}

fn weighted_count(rt: &impl Print, one: i64, other: i64) -> io::Result<()> {
    sum(rt, b"weighted counts", 77, one, other)
}

// Two numbers as the sum at a place.
fn sum(rt: &impl Print, name: &[u8], place: usize, one: i64, other: i64) -> io::Result<()>
    requires { place < 80 }
{
    put(rt, name)?;
    put_next_signed(rt, bits(one))?;
    put_next_signed(rt, bits(other))?;
    show(rt, with_number(place, one), with_number(place, other))
}

// A sum at either bound, past it in either study or in both together, back within it, and the ends of 64 bits.
fn about(rt: &impl Print, name: &[u8], place: usize, about: [i64; 6]) -> io::Result<()>
    requires { place < 80 }
{
    let [bound, past, low, past_low, half, more] = about;
    for (one, other) in [
        (bound, 0),
        (bound, 1),
        (low, 0),
        (low, -1),
        (bound, low),
        (bound, bound),
        (low, low),
        (past, -1),
        (1, past_low),
        (half, half),
        (more, half),
        (i64::MAX, i64::MIN),
    ] {
        sum(rt, name, place, one, other)?;
    }
    Ok(())
}
