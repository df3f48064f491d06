// The checks 2 to 5 of a claim, with 16 between 4 and 5. Each of its dates becomes a day number once.
ghost use Rattle.std.specs.Prelude.{◌≡◌, not, ◌&&◌, ◌||◌, ◌-◌, ◌≤◌, leb, eqb};
ghost use Rattle.basics.specs.Pick.{pick};
ghost use Rattle.basics.specs.Refused.{number_refused, numbered};
ghost use Rattle.calendar.specs.Calendar.{is_date, day_number};
ghost use Rattle.calendar.specs.DayAnswers.{known};
ghost use Rattle.claim_months.specs.Claim.{is_missing, dates_sound, status_sound, claim_check};
ghost use Rattle.claim_months.specs.design.Private.{days_of, none_before, checked_of};

use crate::dated::DatedClaim;
use crate::sound_claim::sound_claim;
use crate::{CheckedClaim, Claim, ClaimDays, NO_DATE};
use basics::limits::MOST_BENEFIT;
use basics::refusal::Refusal;
use calendar::{Date, Day};

// Whether a date is missing: year, month and day all zero.
#[tactic(auto, unfolding(crate::specs::Claim::is_missing))]
fn is_missing(date: Date) -> bool
    ensures { result ≡ is_missing date }
{
    date == NO_DATE
}

// The day number of a date that is asked for, and none of another; no answer where it is asked for and is no date.
// Kept: `asked.then(..)` gives these two options the other way round, and to turn them round is no plainer than the `if`.
#[tactic(auto, unfolding(calendar::specs::DayAnswers::day_of))]
fn day_if(asked: bool, date: Date) -> Option<Option<Day>>
    ensures { result ≡ pick (not asked || is_date date) (Some (pick asked (known (day_number date)) None)) None }
{
    if asked {
        return Some(Some(calendar::day_number(date)?));
    }
    Some(None)
}

// Check 2: the day numbers of the claim's dates.
#[inline(always)]
fn claim_days(claim: Claim) -> Option<ClaimDays>
    ensures { result ≡ pick (dates_sound claim) (Some (days_of claim)) None }
{
    Some(ClaimDays {
        disability: calendar::day_number(claim.disability)?,
        bcd: calendar::day_number(claim.bcd)?,
        termination: day_if(claim.status == 1, claim.termination)?,
        maximum: day_if(!is_missing(claim.maximum), claim.maximum)?,
    })
}

// Check 3.
#[tactic(auto, unfolding(crate::specs::Claim::status_sound, crate::specs::Claim::is_closed))]
fn status_sound(claim: Claim) -> bool
    ensures { result ≡ status_sound claim }
{
    match claim.status {
        0 => claim.code == 0 && is_missing(claim.termination),
        1 => (1..=6).contains(&claim.code),
        _ => false,
    }
}

// Check 4.
fn sequence_sound(days: ClaimDays) -> bool
    ensures { result ≡ (leb days.disability.0 days.bcd.0 && none_before days.bcd days.termination) }
{
    days.disability <= days.bcd
        && days
            .termination
            .is_none_or(|termination| days.bcd <= termination)
}

// EP, the elimination period in days.
pub(crate) fn elimination(days: ClaimDays) -> u32
    requires { days.disability.0 ≤ days.bcd.0 }
    ensures { result ≡ days.bcd.0 - days.disability.0 }
{
    days.bcd.0 - days.disability.0
}

// The first of the checks 2 to 5 and 16 that fails, of a claim that passes check 2.
fn days_check(dated: DatedClaim) -> Result<(), Refusal>
    ensures { number_refused result ≡ claim_check dated.claim }
{
    let claim = dated.claim;
    let days = dated.days;
    if !status_sound(claim) {
        return Err(Refusal::Status);
    }
    if !sequence_sound(days) {
        return Err(Refusal::Sequence);
    }
    if claim.benefit > MOST_BENEFIT {
        return Err(Refusal::Benefit);
    }
    if elimination(days) < 15 {
        return Err(Refusal::ShortElimination);
    }
    Ok(())
}

// The claim as a checked value, or the first of the checks 2 to 5 and 16 that fails.
#[inline(always)]
pub(crate) fn checked(claim: Claim) -> Result<CheckedClaim, Refusal>
    ensures { numbered result ≡ pick (eqb (claim_check claim) 0) (Ok (checked_of claim)) (Err (claim_check claim)) }
{
    let days = claim_days(claim).ok_or(Refusal::Date)?;
    let dated = DatedClaim { claim, days };
    days_check(dated)?;
    Ok(sound_claim(dated))
}

// The first of the checks 2 to 5 and 16 that fails.
pub fn check(claim: Claim) -> Result<(), Refusal>
    ensures { number_refused result ≡ claim_check claim }
{
    checked(claim)?;
    Ok(())
}
