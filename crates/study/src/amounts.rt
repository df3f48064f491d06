// What months add to the three columns of their group that are no counts.
ghost use Rattle.std.specs.Prelude.{◌≡◌, ◌+◌, ◌≤◌, pos, nat_abs, ◌+ℤ◌, ◌-ℤ◌, ◌*ℤ◌};
ghost use Rattle.rates.specs.design.Prepared.{rates_over, part_recovery, part_death};

use crate::expected::month_expected;
use basics::Duration;
use claim_months::Thirtieths;
use rates::Kind;
use rates::prepared::rates_over;

// Thirtieths, expected recoveries and expected deaths.
#[derive(Clone, Copy)]
pub(crate) struct Amounts {
    pub thirtieths: i64,
    pub recoveries: i64,
    pub deaths: i64,
}

// Those of some whole months, 30 thirtieths each, from a duration on.
#[inline(always)]
pub(crate) fn whole_months(kind: Kind, part: &[u32], from: Duration, months: u32) -> Amounts
    requires { months ≤ 6000 }
    ensures thirtieths_value { result.thirtieths ≡ pos 30 *ℤ rates_over (λ d. pos 1) from.0 months }
    ensures recoveries_value { result.recoveries ≡ pos 30 *ℤ rates_over (part_recovery kind part.now) from.0 months }
    ensures deaths_value { result.deaths ≡ pos 30 *ℤ rates_over (part_death kind part.now) from.0 months }
    ensures thirtieths_bound { nat_abs result.thirtieths ≤ 1000000000000000 }
    ensures recoveries_bound { nat_abs result.recoveries ≤ 1000000000000000 }
    ensures deaths_bound { nat_abs result.deaths ≤ 1000000000000000 }
{
    let rates = rates_over(kind, part, from, months as u16);
    Amounts {
        thirtieths: 30 * months as i64,
        recoveries: 30 * rates.recoveries,
        deaths: 30 * rates.deaths,
    }
}

// Those of some thirtieths of the month at a duration.
#[inline(always)]
pub(crate) fn part_month(
    kind: Kind,
    part: &[u32],
    duration: Duration,
    thirtieths: Thirtieths,
) -> Amounts
    requires { thirtieths.0 ≤ 30 }
    ensures thirtieths_value { result.thirtieths ≡ pos thirtieths.0 *ℤ rates_over (λ d. pos 1) duration.0 1 }
    ensures recoveries_value { result.recoveries ≡ pos thirtieths.0 *ℤ rates_over (part_recovery kind part.now) duration.0 1 }
    ensures deaths_value { result.deaths ≡ pos thirtieths.0 *ℤ rates_over (part_death kind part.now) duration.0 1 }
    ensures thirtieths_bound { nat_abs result.thirtieths ≤ 128849018850 }
    ensures recoveries_bound { nat_abs result.recoveries ≤ 128849018850 }
    ensures deaths_bound { nat_abs result.deaths ≤ 128849018850 }
{
    let expected = month_expected(kind, part, duration, thirtieths.0 as i32);
    Amounts {
        thirtieths: thirtieths.0 as i64,
        recoveries: expected.recoveries,
        deaths: expected.deaths,
    }
}

impl Amounts {
    // Both together.
    pub(crate) fn plus(self, other: Amounts) -> Amounts
        requires thirtieths_bound { nat_abs self.thirtieths + nat_abs other.thirtieths ≤ 5000000000000000 }
        requires recoveries_bound { nat_abs self.recoveries + nat_abs other.recoveries ≤ 5000000000000000 }
        requires deaths_bound { nat_abs self.deaths + nat_abs other.deaths ≤ 5000000000000000 }
        ensures thirtieths_value { result.thirtieths ≡ self.thirtieths +ℤ other.thirtieths }
        ensures recoveries_value { result.recoveries ≡ self.recoveries +ℤ other.recoveries }
        ensures deaths_value { result.deaths ≡ self.deaths +ℤ other.deaths }
    {
        Amounts {
            thirtieths: self.thirtieths + other.thirtieths,
            recoveries: self.recoveries + other.recoveries,
            deaths: self.deaths + other.deaths,
        }
    }

    // What they are more than others.
    pub(crate) fn less(self, other: Amounts) -> Amounts
        requires thirtieths_bound { nat_abs self.thirtieths + nat_abs other.thirtieths ≤ 5000000000000000 }
        requires recoveries_bound { nat_abs self.recoveries + nat_abs other.recoveries ≤ 5000000000000000 }
        requires deaths_bound { nat_abs self.deaths + nat_abs other.deaths ≤ 5000000000000000 }
        ensures thirtieths_value { result.thirtieths ≡ self.thirtieths -ℤ other.thirtieths }
        ensures recoveries_value { result.recoveries ≡ self.recoveries -ℤ other.recoveries }
        ensures deaths_value { result.deaths ≡ self.deaths -ℤ other.deaths }
    {
        Amounts {
            thirtieths: self.thirtieths - other.thirtieths,
            recoveries: self.recoveries - other.recoveries,
            deaths: self.deaths - other.deaths,
        }
    }
}
