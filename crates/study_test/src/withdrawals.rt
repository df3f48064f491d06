// Claims taken back (document 02, No. 10): the same moves in a window and its two parts, and withdrawals at the edges of their checks.
use crate::claims::claim;
use crate::edges::{full, given, made, with_sum};
use crate::figures::{
    figures, put_answer, put_groups, weighted_figures, with_study, with_weighted,
};
use crate::studies::{after, opened};
use crate::weights::{weighing, with_claim};
use claim_months::Claim;
use std::io;
use study::Study;
use test_support::lists::same;
use test_support::print::{put, put_next, put_yes};

pub(crate) fn withdrawals(rt: &impl Print, table: &[u32; 1916]) -> io::Result<()> {
    moves(rt, table)?;
    lacking(rt, table)?;
    closings(rt, table)?;
    bounds(rt, table)?;
    orders(rt, table)
}

fn added(
    rt: &impl Print,
    study: Study,
    place: u32,
    benefit: u8,
    table: &[u32; 1916],
) -> io::Result<Study> {
    after(rt, b" +", place, study.add(weighing(place, benefit), table))
}

fn withdrawn(
    rt: &impl Print,
    study: Study,
    place: u32,
    benefit: u8,
    table: &[u32; 1916],
) -> io::Result<Study> {
    after(
        rt,
        b" -",
        place,
        study.withdraw(weighing(place, benefit), table),
    )
}

// Three claims added, one of them three times, and all but two taken back.
fn moved(rt: &impl Print, first: u32, last: u32, table: &[u32; 1916]) -> io::Result<Study> {
    put(rt, b"moves")?;
    put_next(rt, first as u64)?;
    put_next(rt, last as u64)?;
    let one = added(rt, opened(first, last), 1, 3, table)?;
    let two = added(rt, one, 2, 200, table)?;
    let three = added(rt, two, 3, 0, table)?;
    let without = withdrawn(rt, three, 1, 3, table)?;
    let again = added(rt, without, 1, 3, table)?;
    let twice = added(rt, again, 1, 3, table)?;
    let second = withdrawn(rt, twice, 2, 200, table)?;
    let study = withdrawn(rt, second, 1, 3, table)?;
    put(rt, b" taken")?;
    put_next(rt, study.taken as u64)?;
    put(rt, b"\n")?;
    put_groups(rt, &figures(study))?;
    put_groups(rt, &weighted_figures(study))?;
    Ok(study)
}

// The same, then whether it is the study of the two claims, and after these are taken back the fresh one, from which no more can be.
fn undone(rt: &impl Print, first: u32, last: u32, table: &[u32; 1916]) -> io::Result<Study> {
    let study = moved(rt, first, last, table)?;
    put(rt, b"as the two claims")?;
    let other = with_claim(opened(first, last), 3, 1, table);
    put_yes(rt, study == with_claim(other, 1, 3, table))?;
    put(rt, b" then")?;
    let one = withdrawn(rt, study, 3, 0, table)?;
    let none = withdrawn(rt, one, 1, 3, table)?;
    put(rt, b" as opened")?;
    put_yes(rt, none == opened(first, last))?;
    let still = withdrawn(rt, none, 1, 3, table)?;
    put_yes(rt, none == still)?;
    put(rt, b"\n")?;
    Ok(study)
}

fn moves(rt: &impl Print, table: &[u32; 1916]) -> io::Result<()> {
    let whole = undone(rt, 20090101, 20171231, table)?;
    let a = undone(rt, 20090101, 20110215, table)?;
    let b = undone(rt, 20110216, 20171231, table)?;
    put(rt, b"moves parts equal")?;
    put_yes(rt, same(&with_study(figures(a), b), &figures(whole)))?;
    let total = with_weighted(weighted_figures(a), b);
    put_yes(rt, same(&total, &weighted_figures(whole)))?;
    put(rt, b"\n")
}

// Withdraws a claim, and prints the answer and whether the study came back as it was.
fn show(rt: &impl Print, name: &[u8], before: Study, back: Claim, table: &[u32]) -> io::Result<()> {
    put(rt, name)?;
    let answer = before.withdraw(back, table);
    put_answer(rt, before, answer)?;
    if answer.refused.is_none() {
        put_groups(rt, &weighted_figures(answer.study))?;
    }
    Ok(())
}

// No claims; a closing under another category; a benefit above and below the one taken; an open claim, which has no closing to lack.
fn lacking(rt: &impl Print, table: &[u32; 1916]) -> io::Result<()> {
    let fresh = opened(20090101, 20171231);
    show(rt, b"no claims", fresh, claim(1), table)?;
    show(rt, b"no claims, no closing", fresh, claim(0), table)?;
    let settled = with_claim(fresh, 3, 0, table);
    show(rt, b"another category", settled, claim(1), table)?;
    let light = with_claim(fresh, 1, 1, table);
    show(rt, b"heavier", light, weighing(1, 2), table)?;
    let heavy = with_claim(fresh, 1, 3, table);
    show(rt, b"lighter", heavy, weighing(1, 2), table)?;
    show(rt, b"open", light, claim(0), table)
}

// A study with some closings of group 3 under recovery in both sets: those that the second claim has with a benefit of 200, and one less.
fn closing(
    rt: &impl Print,
    name: &[u8],
    count: i64,
    sum: i64,
    table: &[u32; 1916],
) -> io::Result<()> {
    let mut study = given();
    study.sums[17] = count;
    study.sums[57] = sum;
    show(rt, name, study, weighing(1, 200), table)
}

fn closings(rt: &impl Print, table: &[u32; 1916]) -> io::Result<()> {
    closing(rt, b"closings 1 200", 1, 200, table)?;
    closing(rt, b"closings 0 200", 0, 200, table)?;
    closing(rt, b"closings 1 199", 1, 199, table)?;
    closing(rt, b"closings 500001 200", 500001, 200, table)?;
    closing(rt, b"closings 1 100000000", 1, 100000000, table)?;
    closing(rt, b"closings 1 100000001", 1, 100000001, table)?;
    closing(rt, b"closings 0 100000001", 0, 100000001, table)?;
    closing(rt, b"closings -1 200", -1, 200, table)?;
    closing(rt, b"closings 1 -1", 1, -1, table)
}

fn taken(rt: &impl Print, name: &[u8], count: u32, table: &[u32; 1916]) -> io::Result<()> {
    show(rt, name, made(21550, 24836, count), claim(1), table)
}

fn sum(
    rt: &impl Print,
    name: &[u8],
    field: u8,
    number: i64,
    table: &[u32; 1916],
) -> io::Result<()> {
    show(rt, name, with_sum(field, 1, number), claim(1), table)
}

// The claims taken and the sums at the bounds of check 9 and past them.
fn bounds(rt: &impl Print, table: &[u32; 1916]) -> io::Result<()> {
    taken(rt, b"taken 0", 0, table)?;
    taken(rt, b"taken 1", 1, table)?;
    taken(rt, b"taken 500000", 500000, table)?;
    taken(rt, b"taken 500001", 500001, table)?;
    taken(rt, b"taken 4294967295", 4294967295, table)?;
    sum(rt, b"thirtieths -27000000000", 0, -27000000000, table)?;
    sum(rt, b"thirtieths -27000000001", 0, -27000000001, table)?;
    sum(
        rt,
        b"recoveries -27000000000000000",
        1,
        -27000000000000000,
        table,
    )?;
    sum(
        rt,
        b"recoveries -27000000000000001",
        1,
        -27000000000000001,
        table,
    )?;
    sum(
        rt,
        b"deaths -27000000000000000",
        2,
        -27000000000000000,
        table,
    )?;
    sum(
        rt,
        b"deaths -27000000000000001",
        2,
        -27000000000000001,
        table,
    )
}

// Where two checks fail, the first one's number is the answer.
fn orders(rt: &impl Print, table: &[u32; 1916]) -> io::Result<()> {
    let empty = opened(20090101, 20171231);
    show(rt, b"window and date", made(100, 99, 0), claim(15), table)?;
    show(rt, b"status and no claims", empty, claim(16), table)?;
    show(rt, b"benefit and cell", empty, weighing(19, 201), table)?;
    show(rt, b"no rates and no claims", empty, claim(1), &[])?;
    show(rt, b"cell and no claims", empty, claim(19), table)?;
    show(rt, b"rate and no claims", empty, claim(20), table)?;
    show(rt, b"rate, exactly full", full(), claim(20), table)?;
    let mut over = empty;
    over.taken = 500001;
    show(rt, b"full and no closing", over, claim(1), table)?;
    let mut beyond = with_sum(0, 0, 27000000001);
    beyond.taken = 0;
    show(rt, b"beyond and no claims", beyond, claim(1), table)
}
