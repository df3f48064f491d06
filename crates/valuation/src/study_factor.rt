// z, m and T of a group from the sums of a study.
ghost use Rattle.std.specs.Prelude.{◌≡◌, ◌+ℤ◌};
ghost use Rattle.basics.specs.Refused.{numbered};
ghost use Rattle.valuation.specs.Factor.{positive};
ghost use Rattle.valuation.specs.StudyFactor.{study_factor};

use crate::GroupFactor;
use crate::factor::known_factor;
use basics::refusal::Refusal;
use study::sums::{DEATHS, RECOVERIES, sum_at};

// The sum of two numbers where it is positive, else 0.
fn positive_sum(one: i64, other: i64) -> u64
    ensures { result ≡ positive (one +ℤ other) }
{
    (i128::from(one) + i128::from(other)).max(0) as u64
}

// z, m and T of a group from the sums of a study.
pub fn study_factor(sums: &[i64; 80], group: u8) -> Result<GroupFactor, Refusal>
    ensures { numbered result ≡ study_factor sums.now group }
{
    let recovered = sum_at(sums, group, 1);
    let died = sum_at(sums, group, 2);
    let recoveries = sum_at(sums, group, RECOVERIES);
    let deaths = sum_at(sums, group, DEATHS);
    known_factor(
        group,
        positive_sum(recovered, died),
        positive_sum(recoveries, deaths),
    )
}
