// The claim months of a claim.
ghost use Rattle.std.specs.Prelude.{◌≡◌, ◌≤◌};
ghost use Rattle.calendar.specs.Calendar.{first_month, end_month};
ghost use Rattle.claim_months.specs.design.Private.{start_of, OfClaim, Placed, HoldsFor};

use crate::{CheckedClaim, ClaimMonth, MonthDay, Starts};
use calendar::Day;

// The first day of the claim month that starts in the calendar month with an index.
pub(crate) fn start_in(claim: CheckedClaim, index: u32) -> Day
    requires of_claim { OfClaim claim }
    requires first_month_le_index { first_month ≤ index }
    requires index_le_end_month { index ≤ end_month }
    ensures { result.0 ≡ start_of claim index }
{
    match claim.starts {
        Starts::After(days) => Day(calendar::first_day(index).unwrap_or(Day(0)).0 + days),
        Starts::Before(days) => Day(calendar::last_day(index).unwrap_or(Day(0)).0 - days),
    }
}

// The claim month that holds a day from BCD on.
pub(crate) fn claim_month(claim: CheckedClaim, at: MonthDay) -> ClaimMonth
    requires of_claim { OfClaim claim }
    requires placed { Placed at }
    requires day_le_day { claim.bcd.day.0 ≤ at.day.0 }
    ensures { HoldsFor claim at.day.0 result }
{
    let index = at.month;
    let start = start_in(claim, index);
    if at.day.0 < start.0 {
        return ClaimMonth {
            place: index - 1 - claim.bcd.month,
            first: start_in(claim, index - 1),
            last: Day(start.0 - 1),
        };
    }
    ClaimMonth {
        place: index - claim.bcd.month,
        first: start,
        last: Day(start_in(claim, index + 1).0 - 1),
    }
}
