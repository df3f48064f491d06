// The listing of a claim's month records in a window.
ghost use Rattle.std.specs.Prelude.{◌≡◌, ◌+◌, ◌-◌, ◌*◌, ◌≤◌, ◌<◌, pos, length};
ghost use Rattle.std.proofs.Math.IntN.{sub_ℕ};
ghost use Rattle.std.proofs.lemmas.List.Edits.{sets};
ghost use Rattle.basics.specs.Refused.{numbered};
ghost use Rattle.claim_months.specs.Listing.{row, listing_of, list_after};
ghost use Rattle.claim_months.specs.design.Private.{RowBounds, record_of, span_category, span_record, later_of, Placed, OfClaim, SoundWindow, MonthsFor, RowsFor, ListedFor};

use crate::check::checked;
use crate::exposure::{exposed_from, exposed_months, exposed_to, later};
use crate::month::start_in;
use crate::windows::{window, with_months};
use crate::{CheckedClaim, Claim, ExposedMonths, MonthDay, MonthWindow, Row, Span, Thirtieths};
use basics::Duration;
use basics::refusal::Refusal;
use calendar::{Date, Day};

// A number below 2³¹ as a signed one.
// Kept: `try_from` has a way out that no caller takes.
#[tactic(auto, using(crate::proofs::SignedRecords::read_back))]
fn signed(number: u32) -> i32
    requires { number < 2147483648 }
    ensures { result ≡ pos number }
{
    number as i32
}

// U − B, which may be below 0.
fn difference(through: Thirtieths, before: Thirtieths) -> i32
    requires upper_bound { through.0 ≤ 30 }
    requires lower_bound { before.0 ≤ 30 }
    ensures { result ≡ sub_ℕ through.0 before.0 }
{
    signed(through.0) - signed(before.0)
}

// The category of a span's month.
#[tactic(auto, unfolding(crate::specs::design::Private::span_category))]
fn month_category(span: Span, place: u32) -> u8
    requires { place < span.months }
    ensures { result ≡ span_category span place }
{
    if place + 1 == span.months {
        return span.category;
    }
    0
}

// The record of a span's month from `start` to the day before `next`, where the days `from` to `to` are exposed.
#[tactic(auto, unfolding(crate::specs::design::Private::span_record))]
fn month_row(span: Span, place: u32, start: MonthDay, next: Day, from: MonthDay, to: Day) -> Row
    requires first_bound { span.first.0 ≤ 3626 }
    requires place_lt_months { place < span.months }
    requires months_bound { span.months ≤ 1800 }
    requires le_next { 1 ≤ next.0 }
    ensures first_value { result.first ≡ later_of start from }
    ensures result_value { record_of result ≡ span_record span place start next.0 from to.0 }
{
    Row {
        duration: Duration(span.first.0 + place),
        first: later(start, from),
        last: Day((next.0 - 1).min(to.0)),
        through: span.through_at(place),
        before: span.before_at(place),
        category: month_category(span, place),
    }
}

// Stores the six numbers of a record from a place of the list on.
fn put_row(list: &mut [i32], at: usize, month: Row)
    requires at_in_bounds { at + 6 ≤ length list.old }
    requires row_bounds { RowBounds (record_of month) }
    requires placed { Placed month.first }
    ensures { list.new ≡ sets list.old at (row (record_of month)) }
{
    let numbers = [
        signed(month.duration.0),
        signed(month.first.day.0),
        signed(month.last.0),
        difference(month.through, month.before),
        signed(month.first.month),
        i32::from(month.category),
    ];
    list[at..at + 6].copy_from_slice(&numbers);
}

// Stores the records of a window's months, of which there are some, from the list's start on.
// Kept: by places, since the proof over `chunks_exact_mut` didn't close: while rows are lent, the invariant knows nothing of the list.
fn put_rows(claim: CheckedClaim, window: MonthWindow, months: ExposedMonths, list: &mut [i32])
    requires of_claim { OfClaim claim }
    requires sound_window { SoundWindow window }
    requires months_for { MonthsFor claim window months }
    requires months_nonzero { 0 < months.span.months }
    requires months_in_bounds { 6 * months.span.months ≤ length list.old }
    ensures { RowsFor claim window list.old list.new }
{
    let span = months.span;
    let from = exposed_from(claim, window.first);
    let to = exposed_to(claim, window.last).day;
    let day = months.begin.first;
    let mut start = MonthDay {
        day,
        month: claim.bcd.month + months.begin.place,
    };
    for place in 0..span.months {
        let next = MonthDay {
            day: start_in(claim, start.month + 1),
            month: start.month + 1,
        };
        let record = month_row(span, place, start, next.day, from, to);
        put_row(list, 6 * place as usize, record);
        start = next;
    }
}

// The listing of a checked claim in a sound window.
fn list_checked(claim: CheckedClaim, window: MonthWindow, list: &mut [i32]) -> Result<u32, Refusal>
    requires of_claim { OfClaim claim }
    requires sound_window { SoundWindow window }
    ensures { ListedFor claim window list.old list.new (numbered result) }
{
    let months = exposed_months(claim, window);
    let span = months.span;
    if span.months == 0 {
        return Ok(0);
    }
    if list.len() < 6 * span.months as usize {
        return Err(Refusal::ShortList);
    }
    put_rows(claim, window, months, list);
    Ok(span.months)
}

// Lists the month records, six numbers each, and answers how many there are, or the first check that fails.
pub fn list_months(first: Date, last: Date, claim: Claim, list: &mut [i32]) -> Result<u32, Refusal>
    ensures value { numbered result ≡ listing_of first last claim (length list.old) }
    ensures list_after { list.new ≡ list_after first last claim list.old }
{
    let days = window(first, last)?;
    let sound = checked(claim)?;
    list_checked(sound, with_months(days), list)
}
