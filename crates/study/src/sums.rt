// A study's sums, one list of 80 numbers. Group g has eight places from 8 × (g − 1) on: thirtieths, the closing counts under the categories 1 to 5,
// expected recoveries, expected deaths. The weighted set (document 02, No. 7) stands 40 places on, in the same order.
ghost use Rattle.std.specs.Prelude.{◌≡◌, true, ◌&&◌, ◌||◌, ◌+◌, ◌-◌, ◌*◌, ◌%◌, ◌≤◌, ◌<◌, leb, pos, nat_abs, get_or, set};
ghost use Rattle.std.specs.Int.Signed.{non_neg};
ghost use Rattle.basics.specs.Limits.{most_benefit, most_expected};
ghost use Rattle.study.specs.Sums.{is_count, times_at, none, column_bound, all_in_bounds, within, sum_at};
ghost use Rattle.study.specs.design.LentAdding.{room_for, guarded_sum, guarded_plus};
ghost use Rattle.study.specs.design.Private.{bound_in, group_in_bounds, counts_in_bounds, share_by, one_figure, three_raised, LowColumn, LowGroup, six_low};

use crate::amounts::Amounts;
use crate::bounds::Bounds;
use basics::limits::{MOST_BENEFIT, MOST_CLAIMS, MOST_EXPECTED, MOST_THIRTIETHS};

// The columns of a group. A closing count stands in the column of its category.
pub const THIRTIETHS: u8 = 0;

pub const RECOVERIES: u8 = 6;

pub const DEATHS: u8 = 7;

// The sum of a group's column in the first set; 0 for any other group or column.
#[tactic(auto, unfolding(crate::specs::Sums::sum_at))]
pub fn sum_at(sums: &[i64; 80], group: u8, column: u8) -> i64
    ensures { result ≡ sum_at sums.now group column }
{
    if group < 1 || group > 5 || column > DEATHS {
        return 0;
    }
    sums[(8 * (group - 1) + column) as usize]
}

// Whether a column has closing counts.
#[tactic(auto, unfolding(crate::specs::Sums::is_count))]
pub(crate) fn is_count(column: usize) -> bool
    ensures { result ≡ is_count column }
{
    (1..=5).contains(&column)
}

// How many times its bound a group's sum may be: the groups of the weighted set are numbered on from those of the first.
#[tactic(auto, unfolding(crate::specs::Sums::times_at))]
fn times_in(group: usize) -> u64
    ensures value { result ≡ times_at most_benefit (8 * group) }
    ensures upper_bound { result ≤ most_benefit }
{
    if group < 5 {
        return 1;
    }
    MOST_BENEFIT as u64
}

// The bound of refusal 9 in a column.
#[tactic(auto, unfolding(crate::specs::Sums::column_bound, crate::specs::Sums::is_count))]
fn column_bound(column: usize) -> u64
    ensures value { result ≡ column_bound column }
    ensures upper_bound { result ≤ most_expected }
{
    if column == 0 {
        return MOST_THIRTIETHS;
    }
    if column <= 5 {
        return MOST_CLAIMS as u64;
    }
    MOST_EXPECTED
}

// The bound of refusal 9 at a place.
#[tactic(auto, using(crate::proofs::Places::group_bounds))]
pub(crate) fn bound_at(place: usize) -> u64
    requires { place < 80 }
    ensures value { result ≡ times_at most_benefit place * column_bound (place % 8) }
    ensures upper_bound { result ≤ most_benefit * most_expected }
{
    times_in(place / 8) * column_bound(place % 8)
}

// Whether a number lies from −bound to bound.
pub(crate) fn is_within(x: i64, bound: u64) -> bool
    ensures { result ≡ leb (nat_abs x) bound }
{
    x.unsigned_abs() <= bound
}

// Whether a number lies from 0 to bound.
fn is_up_to(x: i64, bound: u64) -> bool
    ensures { result ≡ (leb (nat_abs x) bound && non_neg x) }
{
    x >= 0 && x.cast_unsigned() <= bound
}

// Whether a group's closing counts lie from 0 to bound.
fn counts_within(sums: &[i64; 80], at: usize, bound: u64) -> bool
    requires { at + 8 ≤ 80 }
    ensures { result ≡ counts_in_bounds bound sums.now at }
{
    sums[at + 1..at + 6]
        .iter()
        .all(|&count| is_up_to(count, bound))
}

// Whether the eight sums of a group from a place on are within some times bounds.
#[tactic(auto, using(crate::proofs::InBounds::group_tests))]
fn group_within(sums: &[i64; 80], at: usize, times: u64, bounds: Bounds) -> bool
    requires at_bound { at + 8 ≤ 80 }
    requires times_le_most_benefit { times ≤ most_benefit }
    ensures { result ≡ group_in_bounds times bounds sums.now at }
{
    is_within(sums[at], times * bounds.thirtieths)
        && counts_within(sums, at, times * bounds.count)
        && is_within(sums[at + RECOVERIES as usize], times * bounds.expected)
        && is_within(sums[at + DEATHS as usize], times * bounds.expected)
}

// Whether all sums are within bounds, those of the weighted set within 200 times these.
// Kept: the group's number says its bounds; `as_chunks::<8>` needs it counted beside each chunk.
#[inline(always)]
fn all_within(sums: &[i64; 80], bounds: Bounds) -> bool
    ensures { result ≡ all_in_bounds (bound_in bounds) sums.now }
{
    (0..5).all(|group| group_within(sums, 8 * group, 1, bounds))
        && (5..10).all(|group| group_within(sums, 8 * group, MOST_BENEFIT as u64, bounds))
}

// Whether a study's sums are within the bounds of refusal 9.
#[tactic(auto, unfolding(crate::specs::Sums::column_bound, crate::specs::design::Private::bound_in))]
pub fn has_room(sums: &[i64; 80]) -> bool
    ensures { result ≡ within sums.now }
{
    all_within(
        sums,
        Bounds {
            thirtieths: MOST_THIRTIETHS,
            count: MOST_CLAIMS as u64,
            expected: MOST_EXPECTED,
        },
    )
}

// Whether a block's fifteen claims, whatever their shares, leave them there.
#[tactic(auto, unfolding(crate::specs::design::LentAdding::spare_bound, crate::specs::design::Private::bound_in))]
pub fn has_room_for_block(sums: &[i64; 80]) -> bool
    ensures { result ≡ room_for 15 sums.now }
{
    all_within(
        sums,
        Bounds {
            thirtieths: MOST_THIRTIETHS - 15 * 54000,
            count: MOST_CLAIMS as u64 - 15,
            expected: MOST_EXPECTED - 15 * 240000000000000,
        },
    )
}

// Adds an amount at a place, unless the sum is past every bound of its set: so 64 bits hold any sum. One that is known to be low isn't asked.
#[tactic(auto, unfolding(crate::specs::design::LentAdding::guarded_sum))]
#[inline(always)]
fn raise(sums: &mut [i64; 80], place: usize, amount: i64, most: u64, low: bool)
    requires place_in_bounds { place < 80 }
    requires most_value { most ≡ times_at most_benefit place * most_expected }
    requires most_bound { most ≤ most_benefit * most_expected }
    requires amount_bound { nat_abs amount ≤ 1000000000000000000 }
    requires low_value { low ≡ true → nat_abs (get_or sums.old place (pos 0)) ≤ most }
    ensures { sums.new ≡ set sums.old place (guarded_sum place (get_or sums.old place (pos 0)) amount) }
{
    let before = sums[place];
    if !low && !is_within(before, most) {
        return;
    }
    sums[place] = before + amount;
}

// Adds an amount to a group's column, and the amount times a weight to the same of the weighted set, told whether both sums are low.
#[tactic(auto, unfolding(crate::specs::Sums::times_at))]
#[inline(always)]
pub(crate) fn raise_both(
    sums: &mut [i64; 80],
    group: u8,
    column: u8,
    amount: i64,
    weight: u8,
    low: bool,
)
    requires le_group { 1 ≤ group }
    requires group_bound { group ≤ 5 }
    requires column_bound { column < 8 }
    requires amount_bound { nat_abs amount ≤ 5000000000000000 }
    requires weight_le_most_benefit { weight ≤ most_benefit }
    requires low_value { low ≡ true → LowColumn sums.old group column }
    ensures { sums.new ≡ guarded_plus sums.old (share_by weight (one_figure group column amount)) }
{
    let place = (8 * (group - 1) + column) as usize;
    raise(sums, place, amount, MOST_EXPECTED, low);
    raise(
        sums,
        place + 40,
        weight as i64 * amount,
        MOST_BENEFIT as u64 * MOST_EXPECTED,
        low,
    );
}

// Adds amounts to a group's three columns, told whether all their sums are low.
#[inline(always)]
fn raise_three(sums: &mut [i64; 80], group: u8, amounts: Amounts, weight: u8, low: bool)
    requires le_group { 1 ≤ group }
    requires group_bound { group ≤ 5 }
    requires thirtieths_bound { nat_abs amounts.thirtieths ≤ 5000000000000000 }
    requires recoveries_bound { nat_abs amounts.recoveries ≤ 5000000000000000 }
    requires deaths_bound { nat_abs amounts.deaths ≤ 5000000000000000 }
    requires weight_le_most_benefit { weight ≤ most_benefit }
    requires low_value { low ≡ true → LowGroup sums.old group }
    ensures { sums.new ≡ three_raised group amounts.thirtieths amounts.recoveries amounts.deaths weight sums.old }
{
    raise_both(sums, group, THIRTIETHS, amounts.thirtieths, weight, low);
    raise_both(sums, group, RECOVERIES, amounts.recoveries, weight, low);
    raise_both(sums, group, DEATHS, amounts.deaths, weight, low);
}

// The same where a sum is not low, out of the way. The amounts one by one: as one value they would be put in memory for each call that isn't made.
#[cold]
#[inline(never)]
fn raise_guarded(
    sums: &mut [i64; 80],
    group: u8,
    thirtieths: i64,
    recoveries: i64,
    deaths: i64,
    weight: u8,
)
    requires le_group { 1 ≤ group }
    requires group_bound { group ≤ 5 }
    requires thirtieths_bound { nat_abs thirtieths ≤ 5000000000000000 }
    requires recoveries_bound { nat_abs recoveries ≤ 5000000000000000 }
    requires deaths_bound { nat_abs deaths ≤ 5000000000000000 }
    requires weight_le_most_benefit { weight ≤ most_benefit }
    ensures { sums.new ≡ three_raised group thirtieths recoveries deaths weight sums.old }
{
    let amounts = Amounts {
        thirtieths,
        recoveries,
        deaths,
    };
    raise_three(sums, group, amounts, weight, false);
}

// Whether a group's sums in the three columns that are no counts are low and not below 0 in both sets: one test for all six.
#[inline(always)]
fn are_low(sums: &[i64; 80], group: u8) -> bool
    requires le_group { 1 ≤ group }
    requires group_bound { group ≤ 5 }
    ensures value { result ≡ six_low sums.now group }
    ensures low { result ≡ true → LowGroup sums.now group }
{
    let at = (8 * (group - 1)) as usize;
    let first = sums[at].cast_unsigned()
        | sums[at + 6].cast_unsigned()
        | sums[at + 7].cast_unsigned();
    let weighted = sums[at + 40].cast_unsigned()
        | sums[at + 46].cast_unsigned()
        | sums[at + 47].cast_unsigned();
    first >> 54 | weighted >> 62 == 0
}

// Adds amounts to the three columns of a group that are no counts, and the amounts times a weight to the same of the weighted set.
#[inline(always)]
pub(crate) fn raise_amounts(sums: &mut [i64; 80], group: u8, amounts: Amounts, weight: u8)
    requires le_group { 1 ≤ group }
    requires group_bound { group ≤ 5 }
    requires thirtieths_bound { nat_abs amounts.thirtieths ≤ 5000000000000000 }
    requires recoveries_bound { nat_abs amounts.recoveries ≤ 5000000000000000 }
    requires deaths_bound { nat_abs amounts.deaths ≤ 5000000000000000 }
    requires weight_le_most_benefit { weight ≤ most_benefit }
    ensures { sums.new ≡ three_raised group amounts.thirtieths amounts.recoveries amounts.deaths weight sums.old }
{
    if are_low(sums, group) {
        raise_three(sums, group, amounts, weight, true);
        return;
    }
    raise_guarded(
        sums,
        group,
        amounts.thirtieths,
        amounts.recoveries,
        amounts.deaths,
        weight,
    );
}

// Zeros everywhere: the sums of a study that was opened just now.
#[tactic(auto, unfolding(crate::specs::Sums::none, basics::specs::Tables::table))]
pub fn clear(sums: &mut [i64; 80])
    ensures { sums.new ≡ none }
{
    *sums = [0; 80];
}

// Whether sums are within the bounds of refusal 9; no look is needed where they had room to spare.
pub fn has_still_room(spare: bool, sums: &[i64; 80]) -> bool
    ensures { result ≡ (spare || within sums.now) }
{
    spare || has_room(sums)
}
