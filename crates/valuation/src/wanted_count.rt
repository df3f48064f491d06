// How many closings reach a wanted factor (document 02, No. 11).
ghost use Rattle.std.specs.Prelude.{◌≡◌, ◌≤◌, pos};
ghost use Rattle.basics.specs.Limits.{most_claims};
ghost use Rattle.basics.specs.Refused.{numbered};
ghost use Rattle.valuation.specs.Factor.{credibility};
ghost use Rattle.valuation.specs.WantedCount.{reaches_wanted, wanted_in};
ghost use Rattle.valuation.specs.design.Private.{first_reaching};

use crate::factor::{credibility_of, is_group, margin_of, positive_part, t_of};
use basics::limits::MOST_CLAIMS;
use basics::refusal::Refusal;

// Whether T of a count is at least the wanted one. Its z is given, since no count changes it.
fn reaches(group: u8, z: u64, count: u64, expected: u64, wanted: u64) -> bool
    requires { (z ≡ credibility group (pos expected)) × (count ≤ most_claims) }
    ensures { result ≡ reaches_wanted group (pos expected) wanted count }
{
    if group == 1 {
        return wanted <= 1000000;
    }
    wanted <= t_of(z, margin_of(group, count), count, expected)
}

// The smallest count that reaches the wanted T, by halving: low falls short, and high reaches it or is 500,001, which stands for none.
// T is worked out 20 times at most: once for no closings, and 19 times to halve 500,001 down to 1.
fn first_reaching(group: u8, expected: u64, wanted: u64) -> u64
    ensures { result ≡ first_reaching group (pos expected) wanted }
{
    let z = credibility_of(group, expected);
    if reaches(group, z, 0, expected, wanted) {
        return 0;
    }
    // Kept: std halves slices alone, and no slice holds the counts.
    let mut low = 0;
    let mut high = 500001;
    while low + 1 < high {
        let middle = low + (high - low) / 2;
        if reaches(group, z, middle, expected, wanted) {
            high = middle;
        } else {
            low = middle;
        }
    }
    low + 1
}

// The smallest count that reaches the wanted T with the positive part of E, on which alone of E it depends, or the check that fails.
fn known_count(group: u8, expected: u64, wanted: u64) -> Result<u32, Refusal>
    ensures { numbered result ≡ wanted_in group (pos expected) wanted }
{
    if !is_group(group) {
        return Err(Refusal::Valuation);
    }
    let count = first_reaching(group, expected, wanted);
    if count > u64::from(MOST_CLAIMS) {
        return Err(Refusal::NoCount);
    }
    Ok(count as u32)
}

// The smallest count of closings, up to 500,000, whose T reaches the wanted one, or the check that fails.
pub fn wanted_count(group: u8, expected: i64, wanted: u64) -> Result<u32, Refusal>
    ensures { numbered result ≡ wanted_in group expected wanted }
{
    known_count(group, positive_part(expected), wanted)
}
