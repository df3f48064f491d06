// The calendar of document 01: dates, day numbers and months from 1950-01-01 to 2099-12-31.
#![tactic(auto)]

ghost use Rattle.std.specs.Prelude.{◌≡◌, ◌+◌, ◌≤◌};
ghost use Rattle.calendar.specs.Calendar.{leap_year, month_length, is_date, month_of, last_day_number, first_month};
ghost use Rattle.calendar.specs.DayAnswers.{day_of, date_at, month_at, is_month, first_day, last_day};

pub use basics::Day;

// A calendar date, in the widths of the claim file. Any bit pattern is a value; `is_date` tells which are dates.
// Kept: `is_date` is no ghost field, since the C interface gives any bytes, and checks 1 and 2 answer them.
#[derive(Clone, Copy, PartialEq, Eq)]
pub struct Date {
    pub year: u16,
    pub month: u8,
    pub day: u8,
}

// The day number of 2099-12-31.
pub const LAST_DAY: u32 = 54786;

// The month indices of January 1950 and January 2100.
pub const FIRST_MONTH: u32 = 23400;

pub const END_MONTH: u32 = 25200;

// The full Gregorian leap rule, on every year.
#[tactic(auto, unfolding(crate::specs::Calendar::leap_year))]
fn is_leap_year(year: u16) -> bool
    ensures { result ≡ leap_year year }
{
    year % 400 == 0 || year % 100 != 0 && year % 4 == 0
}

// The number of days of a month, by its number in the year.
fn month_length(year: u16, month: u8) -> u8
    requires { (1 ≤ month) × (month ≤ 12) }
    ensures { result ≡ month_length year month }
{
    if month == 2 {
        if is_leap_year(year) {
            return 29;
        }
        return 28;
    }
    30 + (month + month / 8) % 2
}

// Whether a date stands in the calendar.
#[tactic(auto, using(std::proofs::lemmas::Bool::Decides::nat_tests), unfolding(crate::specs::Calendar::is_date))]
pub fn is_date(date: Date) -> bool
    ensures { result ≡ is_date date }
{
    (1950..=2099).contains(&date.year)
        && (1..=12).contains(&date.month)
        && (1..=month_length(date.year, date.month)).contains(&date.day)
}

// The day number of a date.
pub fn day_number(date: Date) -> Option<Day>
    ensures { result ≡ day_of date }
{
    if !is_date(date) {
        return None;
    }
    let months = (date.year as u32 - 1950) * 12 + (date.month as u32 - 1);
    Some(Day(month_starts::start(months).0 + (date.day as u32 - 1)))
}

// The months from January 1950 to the one that holds a day.
fn month_of(day: Day) -> u32
    requires { day.0 ≤ last_day_number }
    ensures { first_month + result ≡ month_of day.0 }
{
    let number = day.0;
    // 48 months have 1,461 days, and no month starts 3 days before its share of them: this is the month, or the one after it.
    let guess = 48 * (number + 3) / 1461;
    if number < month_starts::start(guess).0 {
        return guess - 1;
    }
    guess
}

// The date of a day number.
pub fn date_of_day(day: Day) -> Option<Date>
    ensures { result ≡ date_at day }
{
    let number = day.0;
    if number > LAST_DAY {
        return None;
    }
    let months = month_of(day);
    let start = month_starts::start(months).0;
    Some(Date {
        year: (1950 + months / 12) as u16,
        month: (months % 12 + 1) as u8,
        day: (number - start + 1) as u8,
    })
}

// The index of the month that holds a day.
pub fn month_of_day(day: Day) -> Option<u32>
    ensures { result ≡ month_at day }
{
    let number = day.0;
    if number > LAST_DAY {
        return None;
    }
    Some(FIRST_MONTH + month_of(day))
}

// Whether an index is that of a month from January 1950 to January 2100.
#[tactic(auto, using(std::proofs::lemmas::Bool::Decides::nat_tests), unfolding(crate::specs::DayAnswers::is_month))]
fn is_month(index: u32) -> bool
    ensures { result ≡ is_month index }
{
    (FIRST_MONTH..=END_MONTH).contains(&index)
}

// The first day of the month with an index.
pub fn first_day(month: u32) -> Option<Day>
    ensures { result ≡ first_day month }
{
    if !is_month(month) {
        return None;
    }
    Some(month_starts::start(month - FIRST_MONTH))
}

// The last day of the month with an index.
pub fn last_day(month: u32) -> Option<Day>
    ensures { result ≡ last_day month }
{
    if !is_month(month) {
        return None;
    }
    // The table ends with the start of January 2100, which has 31 days.
    if month == END_MONTH {
        return Some(Day(LAST_DAY + 31));
    }
    Some(Day(month_starts::start(month + 1 - FIRST_MONTH).0 - 1))
}
