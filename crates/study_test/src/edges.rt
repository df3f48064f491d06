// Studies that no opening made, at the edges of the checks 1 and 9, and the order of the checks.
ghost use Rattle.std.specs.Prelude.{◌+◌, ◌<◌, ◌≤◌};

use crate::claims::claim;
use crate::figures::put_answer;
use crate::studies::study_of;
use basics::refusal::number_in;
use std::io;
use study::Study;
use test_support::dates::date;
use test_support::numbers::bits;
use test_support::print::{put, put_next, put_next_signed};

// About the largest sums that a study takes, above and below 0, and the ends of their type.
const THIRTIETHS: [i64; 6] = [
    27000000000,
    27000000001,
    -27000000000,
    -27000000001,
    i64::MAX,
    i64::MIN,
];

const EXPECTED: [i64; 6] = [
    27000000000000000,
    27000000000000001,
    -27000000000000000,
    -27000000000000001,
    i64::MAX,
    i64::MIN,
];

pub(crate) fn edges(rt: &impl Print, table: &[u32; 1916]) -> io::Result<()> {
    openings(rt)?;
    windows(rt, table)?;
    counts(rt, table)?;
    sums(rt, table)?;
    orders(rt, table)
}

fn openings(rt: &impl Print) -> io::Result<()> {
    opening(rt, 20090101, 20081231)?;
    opening(rt, 20090101, 20090229)?;
    opening(rt, 0, 20091231)?;
    opening(rt, 19491231, 20091231)?;
    opening(rt, 20090101, 21000101)
}

fn opening(rt: &impl Print, first: u32, last: u32) -> io::Result<()> {
    put(rt, b"open")?;
    put_next(rt, first as u64)?;
    put_next(rt, last as u64)?;
    let opened = Study::open(date(first), date(last));
    let study = opened.study;
    put(rt, b" refused")?;
    put_next(rt, number_in(opened.refused) as u64)?;
    put(rt, b" window")?;
    put_next(rt, study.window.first.0 as u64)?;
    put_next(rt, study.window.last.0 as u64)?;
    put(rt, b" taken")?;
    put_next(rt, study.taken as u64)?;
    put(rt, b"\n")
}

// The sums of a group from a place on: thirtieths, five counts, expected recoveries and deaths.
// Kept: `at + 8 ≤ 80` is asked for as `study` does of a group's sums: the place is handed on as a number.
fn with_group(
    sums: [i64; 80],
    at: usize,
    thirtieths: i64,
    count: i64,
    recoveries: i64,
    deaths: i64,
) -> [i64; 80]
    requires { at + 8 ≤ 80 }
{
    let mut after = sums;
    after[at] = thirtieths;
    after[at + 1..at + 6].fill(count);
    after[at + 6] = recoveries;
    after[at + 7] = deaths;
    after
}

// Another number in each group's columns of sums, and one in its counts.
fn made_sums() -> [i64; 80] {
    let one = with_group([0; 80], 0, 10, 40, 20, 30);
    let two = with_group(one, 8, 11, 40, 21, 31);
    let three = with_group(two, 16, 12, 40, 22, 32);
    let four = with_group(three, 24, 13, 40, 23, 33);
    let five = with_group(four, 32, 14, 40, 24, 34);
    let six = with_group(five, 40, 50, 90, 60, 70);
    let seven = with_group(six, 48, 51, 90, 61, 71);
    let eight = with_group(seven, 56, 52, 90, 62, 72);
    let nine = with_group(eight, 64, 53, 90, 63, 73);
    with_group(nine, 72, 54, 90, 64, 74)
}

// A study of a window, with claims taken and sums and counts that no claim gave it.
pub(crate) fn made(first: u32, last: u32, taken: u32) -> Study {
    study_of(first, last, taken, made_sums())
}

// The same from 2009 to 2017.
pub(crate) fn given() -> Study {
    made(21550, 24836, 7)
}

pub(crate) fn full() -> Study {
    made(21550, 24836, 500000)
}

// Adds a claim, and prints the answer and whether the study came back as it was.
fn show(rt: &impl Print, before: Study, place: u32, table: &[u32]) -> io::Result<()> {
    put_answer(rt, before, before.add(claim(place), table))
}

fn windows(rt: &impl Print, table: &[u32; 1916]) -> io::Result<()> {
    window(rt, 100, 99, table)?;
    window(rt, 0, 54787, table)?;
    window(rt, 4294967295, 4294967295, table)?;
    window(rt, 54786, 54786, table)?;
    window(rt, 0, 54786, table)
}

fn window(rt: &impl Print, first: u32, last: u32, table: &[u32; 1916]) -> io::Result<()> {
    put(rt, b"window")?;
    put_next(rt, first as u64)?;
    put_next(rt, last as u64)?;
    show(rt, made(first, last, 7), 1, table)
}

fn counts(rt: &impl Print, table: &[u32; 1916]) -> io::Result<()> {
    taken(rt, 499999, table)?;
    taken(rt, 500000, table)?;
    taken(rt, 4294967295, table)?;
    closing(rt, 0, 500000, table)?;
    closing(rt, 24, 500001, table)?;
    closing(rt, 12, 4000000000, table)?;
    closing(rt, 7, -1, table)
}

fn taken(rt: &impl Print, count: u32, table: &[u32; 1916]) -> io::Result<()> {
    put(rt, b"taken")?;
    put_next(rt, count as u64)?;
    show(rt, made(21550, 24836, count), 1, table)
}

// The count at a place of the 25 in order.
fn closing(rt: &impl Print, place: usize, count: i64, table: &[u32; 1916]) -> io::Result<()>
    requires { place < 25 }
{
    put(rt, b"closings")?;
    put_next(rt, place as u64)?;
    put_next_signed(rt, bits(count))?;
    show(
        rt,
        with_number(8 * (place / 5) + place % 5 + 1, count),
        1,
        table,
    )
}

fn sums(rt: &impl Print, table: &[u32; 1916]) -> io::Result<()> {
    about(rt, 0, THIRTIETHS, table)?;
    about(rt, 1, EXPECTED, table)?;
    about(rt, 2, EXPECTED, table)
}

// Each sum at a place of one field of a study: thirtieths at 0, expected recoveries at 1, expected deaths at 2.
fn about(rt: &impl Print, field: u8, sums: [i64; 6], table: &[u32; 1916]) -> io::Result<()> {
    // Kept: that each place is a group's is seen here, and not in a loop over places and sums.
    sum(rt, field, 0, sums[0], table)?;
    sum(rt, field, 4, sums[1], table)?;
    sum(rt, field, 2, sums[2], table)?;
    sum(rt, field, 3, sums[3], table)?;
    sum(rt, field, 1, sums[4], table)?;
    sum(rt, field, 0, sums[5], table)
}

fn sum(rt: &impl Print, field: u8, place: usize, sum: i64, table: &[u32; 1916]) -> io::Result<()>
    requires { place < 5 }
{
    match field {
        0 => put(rt, b"thirtieths")?,
        1 => put(rt, b"recoveries")?,
        _ => put(rt, b"deaths")?,
    }
    put_next(rt, place as u64)?;
    put_next_signed(rt, bits(sum))?;
    show(rt, with_sum(field, place, sum), 1, table)
}

// A study with a number at one place of its sums.
pub(crate) fn with_number(place: usize, number: i64) -> Study
    requires { place < 80 }
{
    let mut study = given();
    study.sums[place] = number;
    study
}

// The same by field and group: thirtieths at 0, expected recoveries at 1, expected deaths at 2.
// Kept: a field is a number and no enum, as the stored output has it (`bound` in `weights`).
pub(crate) fn with_sum(field: u8, place: usize, sum: i64) -> Study
    requires { place < 10 }
{
    match field {
        0 => with_number(8 * place, sum),
        1 => with_number(8 * place + 6, sum),
        _ => with_number(8 * place + 7, sum),
    }
}

// Where two checks fail, the first one's number is the answer.
fn orders(rt: &impl Print, table: &[u32; 1916]) -> io::Result<()> {
    put(rt, b"window and date")?;
    show(rt, made(100, 99, 7), 15, table)?;
    put(rt, b"status and full")?;
    show(rt, full(), 16, table)?;
    put(rt, b"cell and full")?;
    show(rt, full(), 19, table)?;
    put(rt, b"rate and full")?;
    show(rt, full(), 20, table)?;
    put(rt, b"no rates")?;
    show(rt, given(), 1, &[])?;
    put(rt, b"no rates and date")?;
    show(rt, given(), 15, &[])?;
    put(rt, b"one rate less")?;
    show(rt, given(), 1, &table[..1915])?;
    put(rt, b"one cell")?;
    show(rt, given(), 20, &table[..958])?;
    put(rt, b"cell 256")?;
    show(rt, given(), 24, table)
}
