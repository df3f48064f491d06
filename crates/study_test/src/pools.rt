// Pools the studies of five offices in several trees and orders, with fresh studies among them, and prints one pool and whether all are equal;
// and the pools of consecutive windows and whether they total it.
use crate::numbers::{numbers, put_same, put_study, same_sums, with_numbers};
use crate::offices::office_claim;
use crate::studies::{after, opened};
use basics::refusal::number_in;
use std::io;
use study::Study;
use test_support::lists::counting;
use test_support::print::{put, put_next, put_yes};

// The studies of the five offices.
#[derive(Clone, Copy)]
struct Offices {
    a: Study,
    b: Study,
    c: Study,
    d: Study,
    e: Study,
}

pub(crate) fn pools(rt: &impl Print) -> io::Result<()> {
    let table = counting();
    let whole = in_every_way(rt, &table)?;
    parts(rt, &whole, &table)
}

fn added(rt: &impl Print, study: Study, place: u32, table: &[u32; 1916]) -> io::Result<Study> {
    after(rt, b" ", place, study.add(office_claim(place), table))
}

// The study of the four claims from a place on.
fn office(rt: &impl Print, fresh: Study, place: u8, table: &[u32; 1916]) -> io::Result<Study> {
    let from = place as u32;
    let mut study = fresh;
    for place in from..from + 4 {
        study = added(rt, study, place, table)?;
    }
    Ok(study)
}

fn five_offices(
    rt: &impl Print,
    first: u32,
    last: u32,
    table: &[u32; 1916],
) -> io::Result<Offices> {
    put(rt, b"offices")?;
    put_next(rt, first as u64)?;
    put_next(rt, last as u64)?;
    let fresh = opened(first, last);
    let built = Offices {
        a: office(rt, fresh, 0, table)?,
        b: office(rt, fresh, 4, table)?,
        c: office(rt, fresh, 8, table)?,
        d: office(rt, fresh, 12, table)?,
        e: office(rt, fresh, 16, table)?,
    };
    put(rt, b"\n")?;
    Ok(built)
}

// Both studies as one; the number refused is printed.
fn pooled(rt: &impl Print, one: Study, other: Study) -> io::Result<Study> {
    let answer = one.join(other);
    put_next(rt, number_in(answer.refused) as u64)?;
    Ok(answer.study)
}

// Pairs first.
fn pairs(rt: &impl Print, o: Offices) -> io::Result<Study> {
    put(rt, b"pairs")?;
    let study = pooled(
        rt,
        pooled(rt, o.a, o.b)?,
        pooled(rt, pooled(rt, o.c, o.d)?, o.e)?,
    )?;
    put(rt, b"\n")?;
    Ok(study)
}

// One after the other, from the first and from the last.
fn forward(rt: &impl Print, o: Offices) -> io::Result<Study> {
    put(rt, b"forward")?;
    let study = pooled(
        rt,
        pooled(rt, pooled(rt, pooled(rt, o.a, o.b)?, o.c)?, o.d)?,
        o.e,
    )?;
    put(rt, b"\n")?;
    Ok(study)
}

fn backward(rt: &impl Print, o: Offices) -> io::Result<Study> {
    put(rt, b"backward")?;
    let study = pooled(
        rt,
        o.e,
        pooled(rt, o.d, pooled(rt, o.c, pooled(rt, o.b, o.a)?)?)?,
    )?;
    put(rt, b"\n")?;
    Ok(study)
}

// Another order and grouping, with fresh studies on either side of a join and one of two fresh ones.
fn with_fresh(rt: &impl Print, o: Offices, fresh: Study) -> io::Result<Study> {
    put(rt, b"with fresh")?;
    let left = pooled(
        rt,
        pooled(rt, fresh, o.d)?,
        pooled(rt, pooled(rt, fresh, fresh)?, o.a)?,
    )?;
    let right = pooled(
        rt,
        pooled(rt, o.c, fresh)?,
        pooled(rt, o.e, pooled(rt, fresh, o.b)?)?,
    )?;
    let study = pooled(rt, pooled(rt, right, left)?, fresh)?;
    put(rt, b"\n")?;
    Ok(study)
}

// All twenty claims added to one study, the last office's first.
fn at_once(rt: &impl Print, fresh: Study, table: &[u32; 1916]) -> io::Result<Study> {
    put(rt, b"at once")?;
    let two = office(rt, office(rt, fresh, 16, table)?, 8, table)?;
    let study = office(
        rt,
        office(rt, office(rt, two, 12, table)?, 0, table)?,
        4,
        table,
    )?;
    put(rt, b"\n")?;
    Ok(study)
}

// The offices from 2009 to 2017, pooled in every way, and one pool's numbers.
fn in_every_way(rt: &impl Print, table: &[u32; 1916]) -> io::Result<[u64; 83]> {
    let all = five_offices(rt, 20090101, 20171231, table)?;
    let fresh = opened(20090101, 20171231);
    let list = numbers(pairs(rt, all)?);
    let one = numbers(forward(rt, all)?);
    let two = numbers(backward(rt, all)?);
    let three = numbers(with_fresh(rt, all, fresh)?);
    let four = numbers(at_once(rt, fresh, table)?);
    put_study(rt, &list)?;
    put(rt, b"equal")?;
    for other in [one, two, three, four] {
        put_same(rt, &list, &other)?;
    }
    put(rt, b"\n")?;
    Ok(list)
}

// Three parts of the same years, each pooled in a way of its own.
fn parts(rt: &impl Print, whole: &[u64; 83], table: &[u32; 1916]) -> io::Result<()> {
    let one = pairs(rt, five_offices(rt, 20090101, 20110215, table)?)?;
    let two = backward(rt, five_offices(rt, 20110216, 20131231, table)?)?;
    let three = with_fresh(
        rt,
        five_offices(rt, 20140101, 20171231, table)?,
        opened(20140101, 20171231),
    )?;
    let total = with_numbers(with_numbers(numbers(one), two), three);
    put_study(rt, &total)?;
    put(rt, b"parts total")?;
    put_yes(rt, same_sums(&total, whole))?;
    put(rt, b"\n")
}
