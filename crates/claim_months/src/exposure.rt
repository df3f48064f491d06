// The months of exposure of a claim in a window, as a span.
ghost use Rattle.std.specs.Prelude.{◌≡◌, [], ◌+◌, ◌≤◌, Some};
ghost use Rattle.basics.specs.Refused.{numbered};
ghost use Rattle.claim_months.specs.Exposure.{month_b};
ghost use Rattle.claim_months.specs.Span.{span_of, span_in};
ghost use Rattle.claim_months.specs.design.Private.{closing_within, later_of, from_of, to_of, closing_of, u_at, category_at, Placed, OfClaim, SoundWindow, BeginsFor, no_begin, MonthsFor};

use crate::check::checked;
use crate::month::claim_month;
use crate::windows::{WindowMonths, window_months};
use crate::{
    BeginMonth, CheckedClaim, Claim, ClaimClosing, ClaimMonth, ExposedMonths, MonthDay,
    MonthWindow, Span, Thirtieths, Window,
};
use basics::Duration;
use basics::refusal::Refusal;
use calendar::Day;

// Kept: `claim` and `window` stay two parameters: three functions ask one of the window's days alone, and a struct would be made for one call.
// The claim's closing, if it stands in the window.
#[tactic(auto, unfolding(crate::specs::design::Private::closing_within))]
fn closing_in(claim: CheckedClaim, window: MonthWindow) -> Option<ClaimClosing>
    ensures { result ≡ closing_within claim.closing window.first.day.0 window.last.day.0 }
{
    let closing = claim.closing?;
    if (window.first.day..=window.last.day).contains(&closing.termination.day) {
        return Some(closing);
    }
    None
}

// The later of two days.
// Kept: `max` by a derived order would compare their months too.
#[tactic(auto, unfolding(crate::specs::design::Private::later_of))]
pub(crate) fn later(one: MonthDay, other: MonthDay) -> MonthDay
    ensures { result ≡ later_of one other }
{
    if one.day < other.day {
        return other;
    }
    one
}

// f, the first exposed day.
pub(crate) fn exposed_from(claim: CheckedClaim, first: MonthDay) -> MonthDay
    ensures { result ≡ from_of claim first }
{
    later(claim.bcd, first)
}

// l, the last exposed day.
#[tactic(auto, unfolding(crate::specs::design::Private::to_at))]
pub(crate) fn exposed_to(claim: CheckedClaim, last: MonthDay) -> MonthDay
    ensures { result ≡ to_of claim last }
{
    match claim.closing {
        Some(closing) if closing.termination.day < last.day => closing.termination,
        _ => last,
    }
}

// B of a claim month that ends on the window's first day or later.
#[tactic(auto, unfolding(crate::specs::Exposure::month_b))]
fn month_b(first: Day, month: ClaimMonth) -> Thirtieths
    requires { first.0 ≤ month.last.0 }
    ensures { result.0 ≡ month_b first.0 month.first.0 month.last.0 }
{
    if first <= month.first {
        return Thirtieths(0);
    }
    Thirtieths(30 - (month.last.0 - first.0 + 1))
}

// Kept: compared by number, as in `exposed_months` and `claim_month`: by the derived order the proofs of the three didn't close.
// The claim month that holds f, in a window from a day on. Unless BCD is before that day it is the first one, which starts on BCD.
#[inline(always)]
fn begin_month(claim: CheckedClaim, first: MonthDay) -> BeginMonth
    requires of_claim { OfClaim claim }
    requires placed { Placed first }
    ensures { BeginsFor claim first result }
{
    if first.day.0 <= claim.bcd.day.0 {
        let bcd = claim.bcd.day;
        return BeginMonth {
            place: 0,
            first: bcd,
            before: Thirtieths(0),
        };
    }
    let month = claim_month(claim, first);
    let start = month.first;
    BeginMonth {
        place: month.place,
        first: start,
        before: month_b(first.day, month),
    }
}

// U of the closing month.
#[tactic(auto, unfolding(crate::specs::design::Private::closing_of))]
fn closing_u(closing: ClaimClosing, month: ClaimMonth) -> Thirtieths
    requires first_le_day { month.first.0 ≤ closing.termination.day.0 }
    requires day_le_last { closing.termination.day.0 ≤ month.last.0 }
    ensures { result.0 ≡ closing_of closing month.first.0 month.last.0 }
{
    if closing.category == 1 || closing.category == 2 {
        return Thirtieths(30);
    }
    let termination = closing.termination.day.0;
    if closing.late {
        return Thirtieths(30 - (month.last.0 - termination));
    }
    let days = termination - month.first.0 + 1;
    Thirtieths(days.min(30))
}

// U of the month that holds l, the termination of a claim closed in the window.
#[tactic(auto, unfolding(crate::specs::design::Private::u_at))]
fn last_u(closed: Option<ClaimClosing>, to: Day, month: ClaimMonth) -> Thirtieths
    requires closed_to { (x : ClaimClosing) → Some x ≡ closed → x.termination.day.0 ≡ to.0 }
    requires first_bound { month.first.0 ≤ to.0 }
    requires last_bound { to.0 ≤ month.last.0 }
    ensures { result.0 ≡ u_at closed to.0 month.first.0 month.last.0 }
{
    match closed {
        Some(closing) => closing_u(closing, month),
        None => Thirtieths(30 - (month.last.0 - to.0)),
    }
}

// Its category.
#[tactic(auto, unfolding(crate::specs::design::Private::category_at))]
fn last_category(closed: Option<ClaimClosing>) -> u8
    ensures { result ≡ category_at closed }
{
    match closed {
        Some(closing) => closing.category,
        None => 0,
    }
}

// No months in the window.
#[tactic(auto, unfolding(crate::specs::Span::span_of))]
fn no_months() -> ExposedMonths
    ensures span_value { result.span ≡ span_of [] }
    ensures begin_value { result.begin ≡ no_begin }
{
    let span = Span {
        first: Duration(0),
        months: 0,
        before: Thirtieths(0),
        through: Thirtieths(0),
        category: 0,
    };
    let begin = BeginMonth {
        place: 0,
        first: Day(0),
        before: Thirtieths(0),
    };
    ExposedMonths { span, begin }
}

// The months of a checked claim in a sound window.
#[inline(always)]
pub(crate) fn exposed_months(claim: CheckedClaim, window: MonthWindow) -> ExposedMonths
    requires of_claim { OfClaim claim }
    requires sound_window { SoundWindow window }
    ensures { MonthsFor claim window result }
{
    let from = exposed_from(claim, window.first);
    let to = exposed_to(claim, window.last);
    if to.day.0 < from.day.0 {
        return no_months();
    }
    let begin = begin_month(claim, window.first);
    let end = claim_month(claim, to);
    let before = begin.before;
    let closed = closing_in(claim, window);
    let span = Span {
        first: Duration(claim.first.0 + begin.place),
        months: end.place - begin.place + 1,
        before,
        through: last_u(closed, to.day, end),
        category: last_category(closed),
    };
    ExposedMonths { span, begin }
}

// The span of a claim's months in a window that was looked at, or the first check that fails.
#[inline(always)]
pub fn span_in(claim: Claim, window: WindowMonths) -> Result<Span, Refusal>
    ensures { numbered result ≡ span_in claim window.window.first.0 window.window.last.0 }
{
    let Some(months) = window.months else {
        return Err(Refusal::Window);
    };
    let sound = checked(claim)?;
    Ok(exposed_months(sound, months).span)
}

// The same of any window.
pub fn span(claim: Claim, window: Window) -> Result<Span, Refusal>
    ensures { numbered result ≡ span_in claim window.first.0 window.last.0 }
{
    span_in(claim, window_months(window))
}
