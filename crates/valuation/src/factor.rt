// z, m and T of a group, in millionths.
ghost use Rattle.std.specs.Prelude.{◌≡◌, ◌+◌, ◌-◌, ◌*◌, ◌/◌, ◌≤◌, ◌<◌, eqb, pos};
ghost use Rattle.basics.specs.Limits.{most_claims};
ghost use Rattle.basics.specs.Pick.{pick};
ghost use Rattle.basics.specs.Refused.{numbered};
ghost use Rattle.valuation.specs.Factor.{group_k, group_twice_a, positive, credibility, margin, factors_of, factor_in};
ghost use Rattle.valuation.specs.WantedCount.{good_group};

use crate::GroupFactor;
use basics::limits::MOST_CLAIMS;
use basics::refusal::Refusal;

// The one of four numbers that is the group's, 2 to 5.
fn of_group(group: u8, second: u64, third: u64, fourth: u64, fifth: u64) -> u64
    ensures { result ≡ pick (eqb group 2) second (pick (eqb group 3) third (pick (eqb group 4) fourth fifth)) }
{
    match group {
        2 => second,
        3 => third,
        4 => fourth,
        _ => fifth,
    }
}

// K of a group above 1.
fn k_of(group: u8) -> u64
    ensures { result ≡ group_k group }
{
    of_group(group, 3300, 2500, 2100, 1700)
}

// Twice A of a group above 1: A is 4, 3, 2.5 and 2.
fn twice_a_of(group: u8) -> u64
    ensures { result ≡ group_twice_a group }
{
    of_group(group, 8, 6, 5, 4)
}

// E where it is positive, else 0.
pub(crate) fn positive_part(expected: i64) -> u64
    ensures { result ≡ positive expected }
{
    expected.max(0) as u64
}

// The largest q with q² × unit ≤ bound, by halving: low is such a q, high is none, as the number above all that it can be.
fn root(unit: u64, bound: u64, above: u64) -> u64
    requires { (unit ≤ most_claims) × (1 ≤ above) × (above ≤ 1000000) × (bound < above * above * unit) }
    ensures { (result < above) × (result * result * unit ≤ bound) × (bound < (result + 1) * (result + 1) * unit) }
{
    let mut low = 0;
    let mut high = above;
    // Kept: std's `isqrt` halves 2^32 down, 32 steps, where these are 20 at most.
    while low + 1 < high {
        let middle = low + (high - low) / 2;
        if middle * middle * unit <= bound {
            low = middle;
        } else {
            high = middle;
        }
    }
    low
}

// z of a group above 1.
pub(crate) fn credibility_of(group: u8, expected: u64) -> u64
    ensures { result ≡ credibility group (pos expected) }
{
    let unit = 30 * k_of(group);
    if unit * 1000000 <= expected {
        return 1000000;
    }
    root(unit, 1000000 * expected, 1000000)
}

// m of a group above 1. The smallest r that reaches is one above the largest that doesn't; where that is 120,000 or more, m has its ceiling.
pub(crate) fn margin_of(group: u8, terminations: u64) -> u64
    requires { terminations ≤ most_claims }
    ensures { result ≡ margin group terminations }
{
    if terminations == 0 {
        return 150000;
    }
    let bound = 530450000000 * twice_a_of(group) - 1;
    if 14400000000 * terminations <= bound {
        return 150000;
    }
    30000 + (root(terminations, bound, 120000) + 1)
}

// T of a group above 1.
pub(crate) fn t_of(z: u64, m: u64, terminations: u64, expected: u64) -> u64
    requires { (z ≤ 1000000) × (30000 ≤ m) × (m ≤ 150000) × (terminations ≤ most_claims) }
    ensures { result ≡ pick (eqb expected 0) 1000000 (z * 30 * terminations * (1000000 - m) / expected + (1000000 - z)) }
{
    if expected == 0 {
        return 1000000;
    }
    z * 30 * terminations * (1000000 - m) / expected + (1000000 - z)
}

// z, m and T of a group above 1.
fn factors_of(group: u8, terminations: u64, expected: u64) -> GroupFactor
    requires { (2 ≤ group) × (terminations ≤ most_claims) }
    ensures { result ≡ factors_of group terminations (pos expected) }
{
    let z = credibility_of(group, expected);
    let m = margin_of(group, terminations);
    GroupFactor {
        z: z as u32,
        m: m as u32,
        t: t_of(z, m, terminations, expected),
    }
}

// Whether a group is one of the five. Kept: a group is a number and no enum, as C hands it over; what is none gets check 12.
#[tactic(auto, unfolding(crate::specs::WantedCount::good_group))]
pub(crate) fn is_group(group: u8) -> bool
    ensures { result ≡ good_group group }
{
    (1..=5).contains(&group)
}

// z, m and T of a group from C and the positive part of E, on which alone of E they depend, or the check that fails.
pub(crate) fn known_factor(
    group: u8,
    terminations: u64,
    expected: u64,
) -> Result<GroupFactor, Refusal>
    ensures { numbered result ≡ factor_in group terminations (pos expected) }
{
    if !is_group(group) || terminations > u64::from(MOST_CLAIMS) {
        return Err(Refusal::Valuation);
    }
    if group == 1 {
        return Ok(GroupFactor {
            z: 0,
            m: 0,
            t: 1000000,
        });
    }
    Ok(factors_of(group, terminations, expected))
}

// z, m and T of a group from C (recoveries plus deaths) and E (expected recoveries plus deaths), or the check that fails.
pub fn factor(group: u8, terminations: u32, expected: i64) -> Result<GroupFactor, Refusal>
    ensures { numbered result ≡ factor_in group terminations expected }
{
    known_factor(group, u64::from(terminations), positive_part(expected))
}
