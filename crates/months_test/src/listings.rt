// Lists the month records of the claims that document 01 names, and of claims at the edges of its rules; and of some in a window and its
// parts, side by side.
use crate::durations::durations;
use calendar::{Date, Day};
use claim_months::Claim;
use std::io;
use test_support::dates::date;
use test_support::lists::throughout;
use test_support::numbers::bits_of_short;
use test_support::print::{put, put_named, put_number, put_signed};

// What each place of the lent list holds before a listing.
pub(crate) const BEFORE: i32 = -9999;

pub(crate) fn listings(rt: &impl Print) -> io::Result<()> {
    leap_days(rt)?;
    month_ends(rt)?;
    eliminations(rt)?;
    long_claims(rt)?;
    cut_months(rt)?;
    reclassed(rt)?;
    first_and_last_months(rt)?;
    windows(rt)?;
    closings(rt)?;
    bad_windows(rt)?;
    bad_dates(rt)?;
    bad_statuses(rt)?;
    bad_sequences(rt)?;
    bad_benefits(rt)?;
    lists(rt)?;
    durations(rt)
}

fn leap_days(rt: &impl Print) -> io::Result<()> {
    in_springs(rt, &[20000229, 20010229])
}

// BCDs on the last days of January, in a year with 28 days in February and in one with 29.
fn month_ends(rt: &impl Print) -> io::Result<()> {
    in_springs(
        rt,
        &[
            20110126, 20110127, 20110129, 20110130, 20110131, 20120129, 20120130, 20120131,
            20120229,
        ],
    )
}

fn eliminations(rt: &impl Print) -> io::Result<()> {
    for days in [14, 15, 44, 45, 90, 180] {
        spring(rt, 2010, open(20100415, days))?;
    }
    Ok(())
}

fn long_claims(rt: &impl Print) -> io::Result<()> {
    nine_years(rt, open(20080110, 90))?;
    nine_years(rt, closed(20080110, 20120520, 3))?;
    nine_years(rt, closed(20080110, 20120329, 3))?;
    nine_years(rt, open(20080628, 90))
}

// A settlement in the first claim month, whole and cut the day before.
fn cut_months(rt: &impl Print) -> io::Result<()> {
    let claim = closed(20110210, 20110216, 3);
    nine_years(rt, claim)?;
    show(rt, 20090101, 20110215, claim)?;
    show(rt, 20110216, 20171231, claim)
}

// A recovery 45 and 46 days before and after the maximum date, a change of definition 45 and 46 days before it; the other codes.
fn reclassed(rt: &impl Print) -> io::Result<()> {
    ended(rt, 20120525, 1)?;
    ended(rt, 20120526, 1)?;
    ended(rt, 20120225, 1)?;
    ended(rt, 20120224, 1)?;
    ended(rt, 20120525, 6)?;
    ended(rt, 20120526, 6)?;
    spring(rt, 2012, closed(20110205, 20120410, 2))?;
    spring(rt, 2012, closed(20110205, 20120410, 4))?;
    spring(rt, 2012, closed(20110205, 20120410, 5))
}

// Claim months that end in January 2100, and the first that can be.
fn first_and_last_months(rt: &impl Print) -> io::Result<()> {
    let first = 20991001;
    let last = 20991231;
    show(rt, first, last, open(20980315, 90))?;
    show(rt, first, last, open(20980330, 90))?;
    show(rt, first, last, closed(last, last, 2))?;
    show(rt, 19500101, 19500331, open(19500116, 15))
}

// Windows of one day; a window before the claim, and one after it.
fn windows(rt: &impl Print) -> io::Result<()> {
    let claim = closed(20110210, 20110820, 3);
    show(rt, 20110509, 20110509, claim)?;
    show(rt, 20110510, 20110510, claim)?;
    show(rt, 20110210, 20110210, claim)?;
    show(rt, 20110101, 20110209, claim)?;
    show(rt, 20110821, 20111231, claim)
}

// Closings on a window's first and last day and the day after it; on BCD, on the 31st day of a claim month and from day 27 on.
fn closings(rt: &impl Print) -> io::Result<()> {
    let settled = closed(20110210, 20110820, 3);
    show(rt, 20110820, 20111231, settled)?;
    show(rt, 20110601, 20110820, settled)?;
    show(rt, 20110601, 20110819, settled)?;
    nine_years(rt, closed(20110705, 20110705, 1))?;
    nine_years(rt, closed(20110705, 20110804, 3))?;
    nine_years(rt, closed(20110705, 20110726, 5))?;
    nine_years(rt, closed(20110705, 20110727, 5))
}

fn bad_windows(rt: &impl Print) -> io::Result<()> {
    let claim = open(20110210, 90);
    show(rt, 20110229, 20111231, claim)?;
    show(rt, 20110101, 21000101, claim)?;
    show(rt, 20110502, 20110501, claim)?;
    show(rt, 20110502, 20110501, open(20110230, 90))
}

fn bad_dates(rt: &impl Print) -> io::Result<()> {
    let bcd = 20110210;
    let day = date(20101112);
    let end = 20110820;
    spring(rt, 2011, claim(date(20100001), bcd, 0, 0, 0, 0))?;
    spring(rt, 2011, claim(day, 20110229, 0, 0, 0, 0))?;
    spring(rt, 2011, claim(day, bcd, 20110931, 0, 1, 3))?;
    spring(rt, 2011, claim(day, bcd, 0, 0, 1, 3))?;
    spring(rt, 2011, claim(day, bcd, end, 20121301, 1, 3))?;
    spring(rt, 2011, claim(day, bcd, end, 1, 2, 3))
}

fn bad_statuses(rt: &impl Print) -> io::Result<()> {
    let bcd = 20110210;
    let day = date(20101112);
    let end = 20110820;
    spring(rt, 2011, claim(day, bcd, 0, 0, 2, 0))?;
    spring(rt, 2011, claim(day, bcd, 0, 0, 0, 1))?;
    spring(rt, 2011, claim(day, bcd, end, 0, 0, 0))?;
    spring(rt, 2011, claim(day, bcd, end, 0, 1, 0))?;
    spring(rt, 2011, claim(day, bcd, end, 0, 1, 7))
}

fn bad_sequences(rt: &impl Print) -> io::Result<()> {
    let bcd = 20110210;
    let day = date(20101112);
    spring(rt, 2011, claim(date(20110211), bcd, 0, 0, 0, 0))?;
    spring(rt, 2011, claim(day, bcd, 20110209, 0, 1, 1))?;
    spring(rt, 2011, claim(date(bcd), bcd, 0, 0, 0, 0))
}

// A benefit over 200, alone, with a BCD before disability, and with a short elimination period.
fn bad_benefits(rt: &impl Print) -> io::Result<()> {
    let day = date(20101112);
    benefit(rt, 200, claim(day, 20110210, 20110216, 0, 1, 3))?;
    benefit(rt, 201, claim(day, 20110210, 20110216, 0, 1, 3))?;
    benefit(rt, 201, claim(date(20110211), 20110210, 0, 0, 0, 0))?;
    benefit(rt, 255, claim(date(20110210), 20110210, 0, 0, 0, 0))
}

fn benefit(rt: &impl Print, benefit: u8, claim: Claim) -> io::Result<()> {
    put(rt, b"benefit ")?;
    put_number(rt, benefit as u64)?;
    put(rt, b", ")?;
    let mut paid = claim;
    paid.benefit = benefit;
    spring(rt, 2011, paid)
}

// Lists with room for just the records, for one number fewer, and for no record.
fn lists(rt: &impl Print) -> io::Result<()> {
    let first = date(20110101);
    let last = date(20110430);
    let claim = open(20110129, 90);
    show_in(rt, 24, first, last, claim)?;
    show_in(rt, 23, first, last, claim)?;
    show_in(rt, 0, first, last, claim)?;
    show_in(rt, 0, first, date(20110128), claim)?;
    show_in(rt, 5, first, last, open(20110129, 14))
}

// A claim of EP 90, closed on 2012-04-10, with a maximum date.
fn ended(rt: &impl Print, maximum: u32, code: u8) -> io::Result<()> {
    let disability = days_before(20110205, 90);
    spring(
        rt,
        2012,
        claim(disability, 20110205, 20120410, maximum, 1, code),
    )
}

// An open claim with an elimination period in days.
pub(crate) fn open(bcd: u32, ep: u32) -> Claim {
    claim(days_before(bcd, ep), bcd, 0, 0, 0, 0)
}

// A closed claim of EP 90.
pub(crate) fn closed(bcd: u32, termination: u32, code: u8) -> Claim {
    claim(days_before(bcd, 90), bcd, termination, 0, 1, code)
}

fn claim(
    disability: Date,
    bcd: u32,
    termination: u32,
    maximum: u32,
    status: u8,
    code: u8,
) -> Claim {
    Claim {
        number: 1,
        disability,
        bcd: date(bcd),
        termination: date(termination),
        maximum: date(maximum),
        status,
        code,
        cell: 0,
        benefit: 0,
    }
}

// The date some days before a date; missing, of what is no date.
pub(crate) fn days_before(day: u32, days: u32) -> Date {
    calendar::day_number(date(day)).map_or(date(0), |number| {
        date_at(number.0.wrapping_sub(days) as u64)
    })
}

// The date of a day number; missing, of what is none.
fn date_at(number: u64) -> Date {
    u32::try_from(number)
        .ok()
        .and_then(|day| calendar::date_of_day(Day(day)))
        .unwrap_or(date(0))
}

fn in_springs(rt: &impl Print, bcds: &[u32]) -> io::Result<()> {
    for bcd in bcds {
        in_spring(rt, *bcd)?;
    }
    Ok(())
}

// Shows an open claim of EP 90 in the spring of its BCD's year.
fn in_spring(rt: &impl Print, bcd: u32) -> io::Result<()> {
    let claim = open(bcd, 90);
    let day = claim.bcd;
    spring(rt, day.year, claim)
}

// Shows a claim in the first four months of a year.
fn spring(rt: &impl Print, year: u16, claim: Claim) -> io::Result<()> {
    let first = Date {
        year,
        month: 1,
        day: 1,
    };
    let last = Date {
        year,
        month: 4,
        day: 30,
    };
    show_in(rt, 660, first, last, claim)
}

fn nine_years(rt: &impl Print, claim: Claim) -> io::Result<()> {
    show(rt, 20090101, 20171231, claim)
}

fn show(rt: &impl Print, first: u32, last: u32, claim: Claim) -> io::Result<()> {
    show_in(rt, 660, date(first), date(last), claim)
}

// Shows a claim in a window, listed into so many numbers.
fn show_in(rt: &impl Print, room: usize, first: Date, last: Date, claim: Claim) -> io::Result<()> {
    head(rt, first, last, claim)?;
    let mut space = [BEFORE; 660];
    if let Some(list) = space.get_mut(..room) {
        answer(rt, first, last, claim, list)?;
    }
    Ok(())
}

pub(crate) fn head(rt: &impl Print, first: Date, last: Date, claim: Claim) -> io::Result<()> {
    put(rt, b"window ")?;
    put_date(rt, first)?;
    put(rt, b" to ")?;
    put_date(rt, last)?;
    put(rt, b": disabled ")?;
    put_date(rt, claim.disability)?;
    put(rt, b", BCD ")?;
    put_date(rt, claim.bcd)?;
    put(rt, b", termination ")?;
    put_date(rt, claim.termination)?;
    put(rt, b", maximum ")?;
    put_date(rt, claim.maximum)?;
    put_named(rt, b", status ", claim.status as u64)?;
    put_named(rt, b", code ", claim.code as u64)?;
    put(rt, b"\n")
}

fn answer(
    rt: &impl Print,
    first: Date,
    last: Date,
    claim: Claim,
    list: &mut [i32],
) -> io::Result<()> {
    match claim_months::listing::list_months(first, last, claim, list) {
        Ok(months) => {
            let total = put_rows(rt, list, months)?;
            put_number(rt, months as u64)?;
            put(rt, b" months, ")?;
            put_signed(rt, total)?;
            put(rt, b" thirtieths, list past them")?;
            put_change(rt, throughout(list, 6 * months as usize, BEFORE))?;
        }
        Err(refusal) => {
            put_named(rt, b"refused ", u8::from(refusal) as u64)?;
            put(rt, b", list")?;
            put_change(rt, throughout(list, 0, BEFORE))?;
        }
    }
    Ok(())
}

// Puts the records, one to a line, and answers the bits of the sum of their thirtieths.
fn put_rows(rt: &impl Print, list: &[i32], months: u32) -> io::Result<u64> {
    let mut total: u64 = 0;
    let (rows, _) = list.as_chunks::<6>();
    for row in rows.iter().take(months as usize) {
        put_row(rt, row)?;
        total = total.wrapping_add(bits_of_short(row[3]));
    }
    Ok(total)
}

fn put_row(rt: &impl Print, row: &[i32; 6]) -> io::Result<()> {
    put(rt, b"  ")?;
    put_short(rt, row[0])?;
    put(rt, b": ")?;
    put_day(rt, row[1])?;
    put(rt, b" to ")?;
    put_day(rt, row[2])?;
    put(rt, b", ")?;
    put_short(rt, row[3])?;
    put(rt, b" thirtieths, month ")?;
    put_short(rt, row[4])?;
    put(rt, b", category ")?;
    put_short(rt, row[5])?;
    put(rt, b"\n")
}

fn put_change(rt: &impl Print, same: bool) -> io::Result<()> {
    put(rt, if same { b" unchanged\n" } else { b" changed\n" })
}

fn put_short(rt: &impl Print, number: i32) -> io::Result<()> {
    put_signed(rt, bits_of_short(number))
}

fn put_day(rt: &impl Print, number: i32) -> io::Result<()> {
    put_date(rt, date_at(bits_of_short(number)))
}

// Kept: `days` prints a date without zeros before it, so that the two are not one.
pub(crate) fn put_date(rt: &impl Print, date: Date) -> io::Result<()> {
    put_number(rt, date.year as u64)?;
    put(rt, b"-")?;
    put_two(rt, date.month)?;
    put(rt, b"-")?;
    put_two(rt, date.day)
}

// A number, in two digits if one digit would do.
fn put_two(rt: &impl Print, number: u8) -> io::Result<()> {
    if number < 10 {
        put(rt, b"0")?;
    }
    put_number(rt, number as u64)
}
