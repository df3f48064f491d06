// What a claim that passes its checks is worked with.
ghost use Rattle.std.specs.Prelude.{◌≡◌, true, ◌+◌, ◌-◌, ◌/◌, ◌≤◌};
ghost use Rattle.basics.specs.Pick.{pick};
ghost use Rattle.calendar.specs.Calendar.{is_date, month_index, last_day_number};
ghost use Rattle.claim_months.specs.Claim.{termination_day, is_closed, category, claim_check};
ghost use Rattle.claim_months.specs.design.Private.{maximum_of, near_by, month_day, starts_of, closing_at, checked_of};

use crate::check::elimination;
use crate::dated::DatedClaim;
use crate::{CheckedClaim, Claim, ClaimClosing, ClaimDays, MonthDay, Starts};
use basics::Duration;
use calendar::{Date, Day};

// The code of a closing at the change of definition, and the category that it has.
const CHANGE_OF_DEFINITION: u8 = 6;

const RECOVERY: u8 = 1;

// The category of a claim closed near its maximum date.
const MAX_OUT: u8 = 4;

// The index of a date's calendar month.
fn month_index(date: Date) -> u32
    requires { is_date date ≡ true }
    ensures { result ≡ month_index date.year date.month }
{
    u32::from(date.year) * 12 + (u32::from(date.month) - 1)
}

// The days from the month's first day to BCD or, if its day of month is 27 or later, from BCD to the month's last day.
fn starts_of(date: Date, bcd: MonthDay) -> Starts
    requires date_value { is_date date ≡ true }
    requires bcd_value { bcd ≡ month_day date }
    ensures { result ≡ starts_of date }
{
    if date.day >= 27 {
        let days = calendar::last_day(bcd.month).unwrap_or(Day(0)).0 - bcd.day.0;
        return Starts::Before(days);
    }
    Starts::After(u32::from(date.day) - 1)
}

// The first duration.
fn first_duration(days: ClaimDays) -> Duration
    requires disability_le_bcd { days.disability.0 ≤ days.bcd.0 }
    requires bcd_le_last_day_number { days.bcd.0 ≤ last_day_number }
    ensures { result.0 ≡ (days.bcd.0 - days.disability.0 + 15) / 30 + 1 }
{
    Duration((elimination(days) + 15) / 30 + 1)
}

// Whether a termination day is 45 days or less before or after the maximum day, if there is one.
fn near(termination: Day, maximum: Option<Day>) -> bool
    ensures { result ≡ near_by termination maximum }
{
    maximum.is_some_and(|maximum| termination.0.abs_diff(maximum.0) <= 45)
}

// The category of a closed claim, by the days of its termination and of its maximum.
fn category(claim: Claim, termination: Day, maximum: Option<Day>) -> u8
    requires termination_value { termination.0 ≡ termination_day claim }
    requires maximum_value { maximum ≡ maximum_of claim }
    ensures { result ≡ category claim }
{
    if near(termination, maximum) {
        return MAX_OUT;
    }
    if claim.code == CHANGE_OF_DEFINITION {
        return RECOVERY;
    }
    claim.code
}

// How a claim was closed; none of an open one.
fn closing(dated: DatedClaim) -> Option<ClaimClosing>
    requires { claim_check dated.claim ≡ 0 }
    ensures { result ≡ pick (is_closed dated.claim) (Some (closing_at dated.claim)) None }
{
    let claim = dated.claim;
    let day = dated.days.termination?;
    let termination = MonthDay {
        day,
        month: month_index(claim.termination),
    };
    Some(ClaimClosing {
        termination,
        late: claim.termination.day >= 27,
        category: category(claim, day, dated.days.maximum),
    })
}

// The checked value of a claim that passes the checks 2 to 5.
pub(crate) fn sound_claim(dated: DatedClaim) -> CheckedClaim
    requires { claim_check dated.claim ≡ 0 }
    ensures { result ≡ checked_of dated.claim }
{
    let claim = dated.claim;
    let days = dated.days;
    let day = days.bcd;
    let bcd = MonthDay {
        day,
        month: month_index(claim.bcd),
    };
    CheckedClaim {
        bcd,
        starts: starts_of(claim.bcd, bcd),
        first: first_duration(days),
        closing: closing(dated),
    }
}
