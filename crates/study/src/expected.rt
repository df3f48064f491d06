// What a month expects: the rates of its duration times its thirtieths.
ghost use Rattle.std.specs.Prelude.{◌≡◌, ◌*◌, ◌≤◌, nat_abs, ◌*ℤ◌};
ghost use Rattle.rates.specs.design.Prepared.{rates_over, part_recovery, part_death};

use basics::Duration;
use rates::prepared::rates_over;
use rates::{Kind, RateSums};

// The rates of a duration times thirtieths, with a cell's part of a table; for no thirtieths none are looked up.
pub fn month_expected(kind: Kind, part: &[u32], duration: Duration, thirtieths: i32) -> RateSums
    ensures recoveries_value { result.recoveries ≡ thirtieths *ℤ rates_over (part_recovery kind part.now) duration.0 1 }
    ensures deaths_value { result.deaths ≡ thirtieths *ℤ rates_over (part_death kind part.now) duration.0 1 }
    ensures recoveries_bound { nat_abs result.recoveries ≤ 4294967295 * nat_abs thirtieths }
    ensures deaths_bound { nat_abs result.deaths ≤ 4294967295 * nat_abs thirtieths }
{
    if thirtieths == 0 {
        return RateSums {
            recoveries: 0,
            deaths: 0,
        };
    }
    let times = i64::from(thirtieths);
    let rates = rates_over(kind, part, duration, 1);
    RateSums {
        recoveries: times * rates.recoveries,
        deaths: times * rates.deaths,
    }
}
