// The reserve factor, the valuation rate and the limit on reserves at the edges of each check and between them. Each line has the
// number that varies, or else a running number, and the answer. A factor or a total is written as its bits.
use basics::Duration;
use rates::Cell;
use std::io;
use test_support::lists::filled;
use test_support::print::{put, put_named, put_next, put_number};
use valuation::Reserve;

const EVEN: [u64; 5] = [1000000, 1000000, 1000000, 1000000, 1000000];

const UNEVEN: [u64; 5] = [500000, 800000, 1100000, 1300000, 900000];

fn refused(rt: &impl Print, number: u8) -> io::Result<()> {
    put_named(rt, b": refused ", number as u64)
}

// A number's bits, in 16 hexadecimal digits.
fn put_bits(rt: &impl Print, bits: u64) -> io::Result<()> {
    print!(rt; "{bits:016x}")
}

// The answer for a cell, first duration, five T, months and discount.
fn factor(
    rt: &impl Print,
    case: u64,
    rates: &[u32],
    cell: u32,
    first: u32,
    t: [u64; 5],
    months: u32,
    v: f64,
) -> io::Result<()> {
    put_number(rt, case)?;
    let answer = valuation::reserve_factor::reserve_factor(
        rates,
        Cell(cell),
        Duration(first),
        t,
        months,
        v,
    );
    match answer {
        Reserve::Factor(x) => {
            put(rt, b": factor ")?;
            put_bits(rt, f64::to_bits(x))?;
        }
        Reserve::Refused(n) => refused(rt, n)?,
    }
    put(rt, b"\n")
}

// The answer for a cell, T and duration.
fn rate(
    rt: &impl Print,
    case: u64,
    rates: &[u32],
    cell: u32,
    t: u64,
    duration: u32,
) -> io::Result<()> {
    put_number(rt, case)?;
    let answer = valuation::rate::valuation_rate(rates, Cell(cell), t, Duration(duration));
    match answer {
        Ok(g) => put_named(rt, b": rate ", g as u64)?,
        Err(refusal) => refused(rt, u8::from(refusal))?,
    }
    put(rt, b"\n")
}

fn five(rt: &impl Print, t: [u64; 5]) -> io::Result<()> {
    put(rt, b": T")?;
    for one in t {
        put_next(rt, one)?;
    }
    Ok(())
}

// The answer for a list of open claims, five T, the termination count of group 3 and a discount.
fn limit(
    rt: &impl Print,
    case: u64,
    rates: &[u32],
    list: &[u32],
    t: [u64; 5],
    count: u64,
    v: f64,
) -> io::Result<()> {
    put_number(rt, case)?;
    let answer = valuation::reserve_limit::reserve_limit(rates, list, t, count, v);
    match answer {
        Ok(limit) => {
            let given = f64::to_bits(limit.given);
            let replaced = f64::to_bits(limit.replaced);
            five(rt, limit.t)?;
            put(rt, b" given ")?;
            put_bits(rt, given)?;
            put(rt, b" replaced ")?;
            put_bits(rt, replaced)?;
        }
        Err(refusal) => refused(rt, u8::from(refusal))?,
    }
    put(rt, b"\n")
}

// Two cells; the rate at place i is 7,919 i modulo 20,011, so that no two neighbours are alike.
fn table() -> [u32; 1916] {
    filled([0; 1916], 0, 1916, 0, 7919, 20011)
}

fn discount(rt: &impl Print, case: u64, rates: &[u32], v: f64) -> io::Result<()> {
    factor(rt, case, rates, 0, 4, EVEN, 24, v)
}

fn discounts(rt: &impl Print, rates: &[u32]) -> io::Result<()> {
    put(rt, b"discount\n")?;
    let zero = 0.0f64;
    discount(rt, 1, rates, zero / zero)?;
    discount(rt, 2, rates, zero)?;
    discount(rt, 3, rates, -zero)?;
    discount(rt, 4, rates, -0.5)?;
    discount(rt, 5, rates, 1.0 / zero)?;
    discount(rt, 6, rates, -1.0 / zero)?;
    discount(rt, 7, rates, 1.0)?;
    discount(rt, 8, rates, 1.0000000000000002)?;
    discount(rt, 9, rates, 0.9999999999999999)?;
    discount(rt, 10, rates, 5e-324)?;
    discount(rt, 11, rates, 1e-310)?;
    discount(rt, 12, rates, 0.5)?;
    discount(rt, 13, rates, 0.997)
}

fn of_months(rt: &impl Print, months: u32, rates: &[u32]) -> io::Result<()> {
    factor(rt, months as u64, rates, 1, 4, UNEVEN, months, 0.997)
}

fn lengths(rt: &impl Print, rates: &[u32]) -> io::Result<()> {
    put(rt, b"months\n")?;
    for months in [0, 1, 2, 479, 480, 481, u32::MAX] {
        of_months(rt, months, rates)?;
    }
    Ok(())
}

// Three months from a duration on.
fn from_duration(rt: &impl Print, rates: &[u32], first: u32) -> io::Result<()> {
    factor(rt, first as u64, rates, 0, first, UNEVEN, 3, 0.997)
}

fn durations(rt: &impl Print, rates: &[u32]) -> io::Result<()> {
    put(rt, b"first duration\n")?;
    for first in [0, 1, 2, 3, 23, 59, 119] {
        from_duration(rt, rates, first)?;
    }
    factor(rt, 478, rates, 0, 478, UNEVEN, 5, 0.997)?;
    for first in [480, 481, u32::MAX] {
        from_duration(rt, rates, first)?;
    }
    Ok(())
}

fn improvements(rt: &impl Print, rates: &[u32]) -> io::Result<()> {
    put(rt, b"T\n")?;
    factor(rt, 0, rates, 0, 2, [0; 5], 480, 0.997)?;
    factor(rt, 1000000, rates, 0, 2, EVEN, 480, 0.997)?;
    factor(rt, u64::MAX, rates, 0, 2, [u64::MAX; 5], 480, 0.997)?;
    factor(rt, 1, rates, 0, 2, UNEVEN, 480, 0.997)?;
    for t in [0, 1000000, 987654, u64::MAX] {
        rate(rt, t, rates, 0, t, 4)?;
    }
    Ok(())
}

fn rate_durations(rt: &impl Print, rates: &[u32]) -> io::Result<()> {
    put(rt, b"duration\n")?;
    for (cell, duration) in [(0, 0), (0, 1), (0, 2), (1, 480), (1, 481), (1, u32::MAX)] {
        rate(rt, duration as u64, rates, cell, 1000000, duration)?;
    }
    Ok(())
}

// A cell of the first n rates as a table, with a discount.
fn part(rt: &impl Print, rates: &[u32], n: usize, cell: u32, v: f64) -> io::Result<()> {
    if let Some(table) = rates.get(..n) {
        factor(rt, n as u64, table, cell, 4, EVEN, 24, v)?;
        rate(rt, n as u64, table, cell, 1000000, 4)?;
    }
    Ok(())
}

// Tables that aren't one, and cells that aren't there.
fn tables(rt: &impl Print, rates: &[u32]) -> io::Result<()> {
    put(rt, b"rates\n")?;
    for (n, cell) in [
        (0, 0),
        (957, 0),
        (958, 0),
        (958, 1),
        (959, 0),
        (1916, 1),
        (1916, 2),
        (1916, 255),
        (1916, 256),
        (1916, u32::MAX),
    ] {
        part(rt, rates, n, cell, 0.997)?;
    }
    Ok(())
}

// A call that fails several checks answers the first of them.
fn order(rt: &impl Print, rates: &[u32]) -> io::Result<()> {
    put(rt, b"first of several\n")?;
    let short = [0u32; 957];
    factor(rt, 6, &short, 255, 1, EVEN, 481, 0.0)?;
    rate(rt, 6, &short, 255, 0, 1)?;
    factor(rt, 7, rates, 2, 1, EVEN, 481, 0.0)?;
    rate(rt, 7, rates, 2, 0, 481)?;
    factor(rt, 12, rates, 0, 2, EVEN, 481, 0.0)
}

// Cell 1 has at duration 102 a recovery rate of 999,000 and the given death rate.
fn heavy(rt: &impl Print, table: [u32; 1916], death: u32) -> io::Result<()> {
    put(rt, b"cell of a heavy table\n")?;
    let mut rates = table;
    rates[1058] = 999000;
    rates[1537] = death;
    factor(rt, 0, &rates, 0, 100, EVEN, 5, 0.997)?;
    factor(rt, 1, &rates, 1, 100, EVEN, 5, 0.997)?;
    factor(rt, 1, &rates, 1, 481, EVEN, 481, 1.5)?;
    rate(rt, 1, &rates, 1, 1000000, 102)?;
    rate(rt, 1, &rates, 1, 1000000, 481)
}

// T × S about 10^12, and below 1,000,000.
fn products(rt: &impl Print, death: u32) -> io::Result<()> {
    put(rt, b"T of a death rate\n")?;
    let mut rates = [0u32; 958];
    rates[481] = death;
    for t in [1, 999999, 999999999999, 1000000000000, u64::MAX] {
        rate(rt, t, &rates, 0, t, 4)?;
    }
    factor(rt, 1000000, &rates, 0, 2, EVEN, 4, 0.5)
}

// 65 cells and 1,024, which are tables, and 1,025, which are none.
fn many(rt: &impl Print, rates: &[u32; 981950]) -> io::Result<()> {
    for (n, cell) in [
        (62270, 64),
        (62270, 65),
        (980992, 256),
        (980992, 1023),
        (980992, 1024),
        (981950, 0),
    ] {
        part(rt, rates, n, cell, 0.5)?;
    }
    Ok(())
}

// The paper's figure, then many cells.
fn cells(rt: &impl Print) -> io::Result<()> {
    put(rt, b"cells\n")?;
    let halves = [250000u32; 958];
    factor(rt, 1, &halves, 0, 4, EVEN, 2, 0.5)?;
    many(rt, &[0u32; 981950])
}

// Claims of groups 3 to 5, some across a group's end, in two orders.
fn judged(rt: &impl Print, case: u64, rates: &[u32], t: [u64; 5], count: u64) -> io::Result<()> {
    let claims = [0, 25, 120, 1, 61, 300, 0, 121, 480, 1, 480, 7, 0, 60, 2];
    limit(rt, case, rates, &claims, t, count, 0.997)?;
    let turned = [0, 60, 2, 1, 480, 7, 0, 121, 480, 1, 61, 300, 0, 25, 120];
    limit(rt, case, rates, &turned, t, count, 0.997)
}

// Below 1.30, above it, and above it in one group only; about 5,000 terminations of group 3.
fn limits(rt: &impl Print, rates: &[u32]) -> io::Result<()> {
    put(rt, b"limit\n")?;
    judged(rt, 1, rates, EVEN, 0)?;
    judged(rt, 2, rates, UNEVEN, 4999)?;
    for (case, t, count) in [
        (3, [1000000, 1000000, 1300000, 1300000, 1300000], 0),
        (4, [2000000, 2000000, 1300001, 1300000, 1300000], 0),
        (5, [2000000, 2000000, 1300000, 1500000, 1300000], 0),
        (6, [1400000, 500000, 1900000, 1600000, u64::MAX], 0),
        (4999, [900000, 900000, 2000000, 1200000, 1310000], 4999),
        (5000, [900000, 900000, 2000000, 1200000, 1310000], 5000),
        (5001, [900000, 900000, 2000000, 1200000, 1400000], 5001),
        (7, [900000, 900000, 2000000, 1200000, 1400000], u64::MAX),
    ] {
        judged(rt, case, rates, t, count)?;
    }
    Ok(())
}

// No claims: nothing else is looked at. Claims of one group: the other groups' T are replaced all the same, or kept.
fn few_claims(rt: &impl Print, rates: &[u32]) -> io::Result<()> {
    put(rt, b"few claims\n")?;
    let zero = 0.0f64;
    let none = [0u32; 0];
    let short = [0u32; 957];
    limit(rt, 0, &none, &none, UNEVEN, 0, zero / zero)?;
    limit(rt, 0, &short, &none, [0; 5], 4294967296, 2.0)?;
    let fifth = [0, 121, 240];
    limit(
        rt,
        1,
        rates,
        &fifth,
        [1000000, 1000000, 2000000, 2000000, 1300000],
        0,
        0.997,
    )?;
    limit(
        rt,
        2,
        rates,
        &fifth,
        [1000000, 1000000, 2000000, 2000000, 1300001],
        0,
        0.997,
    )?;
    limit(
        rt,
        3,
        rates,
        &fifth,
        [1000000, 1000000, 900000, 900000, 2000000],
        0,
        0.997,
    )?;
    let paid = [0, 25, 0, 1, 480, 0];
    limit(rt, 4, rates, &paid, [2000000; 5], 0, 1.0)
}

// One claim, with a sound one before it.
fn second_claim(
    rt: &impl Print,
    case: u64,
    rates: &[u32],
    cell: u32,
    duration: u32,
    months: u32,
    v: f64,
) -> io::Result<()> {
    let claims = [1, 25, 10, cell, duration, months];
    limit(rt, case, rates, &claims, EVEN, 0, v)
}

fn claim_checks(rt: &impl Print, rates: &[u32]) -> io::Result<()> {
    put(rt, b"open claims\n")?;
    for (case, cell, duration, months) in [
        (24, 0, 24, 10),
        (25, 0, 25, 480),
        (480, 0, 480, 480),
        (481, 0, 481, 10),
        (2, 0, 2, 10),
        (1, 0, 1, 10),
        (481, 0, 24, 481),
        (2, 2, 24, 481),
        (65536, 65536, 25, 10),
        (4294967295, u32::MAX, 25, 10),
    ] {
        second_claim(rt, case, rates, cell, duration, months, 0.997)?;
    }
    second_claim(rt, 0, rates, 0, 25, 10, 1.5)?;
    let first_short = [0, 24, 10, 2, 25, 10];
    limit(rt, 17, rates, &first_short, EVEN, 0, 0.997)?;
    limit(rt, 13, rates, &first_short, EVEN, 0, 0.0)?;
    let first_missing = [2, 25, 10, 0, 24, 10];
    limit(rt, 7, rates, &first_missing, EVEN, 0, 0.997)?;
    let short = [0u32; 957];
    limit(rt, 6, &short, &first_short, EVEN, 0, 0.0)?;
    limit(rt, 8, &[500001; 958], &first_short, EVEN, 0, 0.0)
}

// Up to 2,000 claims, and none left over.
fn list_lengths(rt: &impl Print) -> io::Result<()> {
    put(rt, b"list of open claims\n")?;
    let cells = [700u32; 24908];
    limit(rt, 5997, &cells, &[25u32; 5997], EVEN, 0, 0.997)?;
    limit(rt, 6000, &cells, &[25u32; 6000], EVEN, 0, 0.997)?;
    limit(rt, 6001, &cells, &[25u32; 6001], EVEN, 0, 0.997)?;
    limit(rt, 6003, &cells, &[25u32; 6003], EVEN, 0, 0.997)?;
    limit(rt, 1, &cells, &[25], EVEN, 0, 0.997)?;
    limit(rt, 2, &cells, &[0, 24], EVEN, 0, 0.997)?;
    let none = [0u32; 0];
    limit(rt, 4, &none, &[0, 24, 1, 0], EVEN, 0, 0.0)
}

pub(crate) fn reserves(rt: &impl Print) -> io::Result<()> {
    let rates = table();
    discounts(rt, &rates)?;
    lengths(rt, &rates)?;
    durations(rt, &rates)?;
    improvements(rt, &rates)?;
    rate_durations(rt, &rates)?;
    tables(rt, &rates)?;
    order(rt, &rates)?;
    heavy(rt, rates, 1000)?;
    heavy(rt, rates, 1001)?;
    for death in [0, 1, 500000, 1000000] {
        products(rt, death)?;
    }
    cells(rt)?;
    limits(rt, &rates)?;
    few_claims(rt, &rates)?;
    claim_checks(rt, &rates)?;
    list_lengths(rt)
}
