// Runs the calendar over every day from 1950-01-01 to 2099-12-31, against one that counts day by day here, and at its edges.
use calendar::{Date, Day};
use std::io;
use test_support::dates::date;
use test_support::print::{put, put_named, put_number};

// What the calendar answers otherwise than the count here, by kind, and the sums of what it answers.
#[derive(Clone, Copy)]
struct Tally {
    days: u32,
    dates: u64,
    numbers: u64,
    months: u64,
    ends: u64,
    year_sum: u64,
    month_sum: u64,
    day_sum: u64,
}

pub(crate) fn days(rt: &impl Print) -> io::Result<()> {
    report(rt, every_day())?;
    edges(rt)
}

fn every_day() -> Tally {
    let mut t = Tally {
        days: 0,
        dates: 0,
        numbers: 0,
        months: 0,
        ends: 0,
        year_sum: 0,
        month_sum: 0,
        day_sum: 0,
    };
    let mut day = date(19500101);
    for number in 0..54787 {
        t = tallied(t, number, day);
        day = next(day);
    }
    t
}

fn report(rt: &impl Print, t: Tally) -> io::Result<()> {
    line(rt, b"days run", t.days as u64)?;
    line(rt, b"wrong dates", t.dates)?;
    line(rt, b"wrong day numbers", t.numbers)?;
    line(rt, b"wrong months", t.months)?;
    line(rt, b"wrong ends of months", t.ends)?;
    line(rt, b"sum of years", t.year_sum)?;
    line(rt, b"sum of months", t.month_sum)?;
    line(rt, b"sum of days", t.day_sum)
}

// One day more: the date that the count has reached is the one of that number, both ways.
fn tallied(t: Tally, number: u32, due: Date) -> Tally {
    let found = calendar::date_of_day(Day(number)).unwrap_or(date(0));
    let back = number_of(calendar::day_number(found));
    let index = calendar::month_of_day(Day(number)).unwrap_or(u32::MAX);
    let month = due.year as u32 * 12 + due.month as u32;
    Tally {
        days: t.days.wrapping_add(1),
        dates: counted(t.dates, found == due),
        numbers: counted(t.numbers, back == number),
        months: counted(t.months, index.wrapping_add(1) == month),
        ends: counted(t.ends, within(number, due, index)),
        year_sum: t.year_sum.wrapping_add(found.year as u64),
        month_sum: t.month_sum.wrapping_add(found.month as u64),
        day_sum: t.day_sum.wrapping_add(found.day as u64),
    }
}

fn counted(count: u64, right: bool) -> u64 {
    count.wrapping_add(u64::from(!right))
}

// The day is between its month's ends, the date's day from the first, and the month is as long as it is here.
fn within(number: u32, date: Date, index: u32) -> bool {
    let first = number_of(calendar::first_day(index));
    let last = number_of(calendar::last_day(index));
    let days = length(date.year, date.month) as u32;
    (first..=last).contains(&number)
        && number.wrapping_sub(first).wrapping_add(1) == date.day as u32
        && last.wrapping_sub(first).wrapping_add(1) == days
}

// The day after a date, by the calendar's rule.
fn next(date: Date) -> Date {
    if date.day < length(date.year, date.month) {
        return Date {
            year: date.year,
            month: date.month,
            day: date.day + 1,
        };
    }
    if date.month < 12 {
        return Date {
            year: date.year,
            month: date.month + 1,
            day: 1,
        };
    }
    Date {
        year: date.year.wrapping_add(1),
        month: 1,
        day: 1,
    }
}

fn length(year: u16, month: u8) -> u8 {
    match month {
        4 | 6 | 9 | 11 => 30,
        2 => february(year),
        _ => 31,
    }
}

fn february(year: u16) -> u8 {
    if year % 4 == 0 && (year % 100 != 0 || year % 400 == 0) {
        return 29;
    }
    28
}

// The largest number for no day.
fn number_of(day: Option<Day>) -> u32 {
    day.map_or(u32::MAX, |d| d.0)
}

// The dates and numbers at which an answer begins or ends, and those with none.
fn edges(rt: &impl Print) -> io::Result<()> {
    let right = [19500101, 20000229, 20991231];
    show_dates(rt, &right)?;
    let no_month_or_day = [19500001, 19501301, 19500100, 19500431, 20010229, 19000229];
    show_dates(rt, &no_month_or_day)?;
    let no_year = [101, 655350101, 19491231, 21000101];
    show_dates(rt, &no_year)?;
    for number in [0, 54786, 54787, u32::MAX] {
        show_number(rt, number)?;
    }
    for index in [23399, 23400, 25200, 25201] {
        show_month(rt, index)?;
    }
    Ok(())
}

// Dates written as digits, a line each.
fn show_dates(rt: &impl Print, list: &[u32]) -> io::Result<()> {
    for digits in list {
        show_date(rt, date(*digits))?;
    }
    Ok(())
}

fn show_date(rt: &impl Print, date: Date) -> io::Result<()> {
    put_date(rt, date)?;
    if calendar::is_date(date) {
        put(rt, b" is a date, ")?;
    } else {
        put(rt, b" is no date, ")?;
    }
    put_day(rt, calendar::day_number(date))?;
    put(rt, b"\n")
}

fn show_number(rt: &impl Print, number: u32) -> io::Result<()> {
    put_number(rt, number as u64)?;
    match calendar::date_of_day(Day(number)) {
        Some(date) => {
            put(rt, b" is ")?;
            put_date(rt, date)?;
        }
        None => put(rt, b" has no date")?,
    }
    match calendar::month_of_day(Day(number)) {
        Some(index) => {
            put_named(rt, b", month ", index as u64)?;
        }
        None => put(rt, b", no month")?,
    }
    put(rt, b"\n")
}

fn show_month(rt: &impl Print, index: u32) -> io::Result<()> {
    put_named(rt, b"month ", index as u64)?;
    put(rt, b": ")?;
    put_day(rt, calendar::first_day(index))?;
    put(rt, b" to ")?;
    put_day(rt, calendar::last_day(index))?;
    put(rt, b"\n")
}

fn put_day(rt: &impl Print, day: Option<Day>) -> io::Result<()> {
    match day {
        Some(d) => put_named(rt, b"day ", d.0 as u64),
        None => put(rt, b"no day"),
    }
}

fn put_date(rt: &impl Print, date: Date) -> io::Result<()> {
    put_number(rt, date.year as u64)?;
    put_named(rt, b"-", date.month as u64)?;
    put_named(rt, b"-", date.day as u64)
}

fn line(rt: &impl Print, label: &[u8], number: u64) -> io::Result<()> {
    put(rt, label)?;
    put_named(rt, b": ", number)?;
    put(rt, b"\n")
}
