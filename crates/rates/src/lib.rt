// The lent rate table: its checks, the rates of a cell at a duration, and the group of a duration.
#![tactic(auto)]

ghost use Rattle.std.specs.Prelude.{◌≡◌, ◌+◌, ◌-◌, ◌*◌, ◌≤◌, leb, length, get_or};
ghost use Rattle.basics.specs.Limits.{cell_numbers};
ghost use Rattle.basics.specs.Refused.{number_refused};
ghost use Rattle.rates.specs.Rates.{place, length_sound, rate_check, rates_sound, recovery_rate, death_rate, group_of, last_of, group_last};
ghost use Rattle.rates.specs.design.Private.{one_above};

pub mod prepared;

use basics::Duration;
use basics::limits::{CELL_NUMBERS, LAST_DURATION};
use basics::refusal::Refusal;

// A cell of a rate table. A unit of its own.
// Kept: it goes beside its table: which cells a table has is what check 7 answers, so the two make no sound pair before.
#[derive(Clone, Copy)]
pub struct Cell(pub u32);

// Whether a lent table holds rates or was prepared.
// Kept: kind and table are two parameters, as in the definitions and in public functions; an enum that holds the table would ask callers for another type.
// What is asked again and again of one table takes a `RateTable`.
// Functions without a kind, as `add` beside `add_with`, are public and promised for plain rates.
#[derive(Clone, Copy)]
pub enum Kind {
    Plain,
    Prepared,
}

// Sums of rates over durations, in millionths.
#[derive(Clone, Copy)]
pub struct RateSums {
    pub recoveries: i64,
    pub deaths: i64,
}

// The place of a duration among a cell's 479 rates of one kind.
#[tactic(auto, unfolding(crate::specs::Rates::place))]
pub(crate) fn place_of(duration: Duration) -> usize
    ensures { result ≡ place duration.0 }
{
    duration.0.min(LAST_DURATION).saturating_sub(2) as usize
}

// The rate of a cell at a duration, of the kind whose rates start `from` places into the cell; 0 past the table.
#[tactic(auto, unfolding(crate::specs::Rates::place))]
pub(crate) fn rate(rates: &[u32], cell: Cell, from: u16, duration: Duration) -> u32
    ensures { result ≡ get_or rates.now (cell.0 * cell_numbers + from + place duration.0) 0 }
{
    let at = cell.0 as usize * CELL_NUMBERS + from as usize + place_of(duration);
    rates.get(at).copied().unwrap_or(0)
}

// The recovery rate of a cell at a duration, in millionths; 0 past the table.
#[tactic(auto, unfolding(crate::specs::Rates::recovery_rate))]
pub fn recovery(rates: &[u32], cell: Cell, duration: Duration) -> u32
    ensures { result ≡ recovery_rate rates.now cell.0 duration.0 }
{
    rate(rates, cell, 0, duration)
}

// The death rate of a cell at a duration, in millionths; 0 past the table.
#[tactic(auto, unfolding(crate::specs::Rates::death_rate))]
pub fn death(rates: &[u32], cell: Cell, duration: Duration) -> u32
    ensures { result ≡ death_rate rates.now cell.0 duration.0 }
{
    rate(rates, cell, 479, duration)
}

// Whether a recovery and a death rate are together at most 1,000,000; `&` has no branch.
fn are_sound(recovery: u32, death: u32) -> bool
    ensures { result ≡ leb (recovery + death) 1000000 }
{
    (recovery <= 1000000) & (death <= 1000000u32.saturating_sub(recovery))
}

// Whether recovery and death rate of a cell's part are together at most 1,000,000 at each duration from 2 to 480. With no early exit and no branch the
// loop looks at several durations at once. Kept: the part is a slice, as the callers cut it from a table.
pub(crate) fn sound(part: &[u32]) -> bool
    requires { length part.now ≡ cell_numbers }
    ensures { result ≡ rates_sound part.now 0 }
{
    let mut all = true;
    // Kept: the halves are one list, and the definition tests it duration by duration: a `zip` has to cut it first, and says no more.
    for i in 0..479 {
        all &= are_sound(part[i], part[479 + i]);
    }
    all
}

// Whether a table may have so many numbers: 958 for each of 1 to 1,024 cells.
#[tactic(auto, using(std::proofs::lemmas::Bool::Decides::nat_tests), unfolding(crate::specs::Rates::length_sound))]
pub(crate) fn is_table(numbers: usize) -> bool
    ensures { result ≡ length_sound numbers }
{
    numbers % CELL_NUMBERS == 0 && (1..=1024).contains(&(numbers / CELL_NUMBERS))
}

// The first of the checks 6 to 8 that fails for a table and a cell.
#[tactic(auto, unfolding(crate::specs::design::Prepared::table_check_of))]
pub fn check(rates: &[u32], cell: Cell) -> Result<(), Refusal>
    ensures { number_refused result ≡ rate_check rates.now cell.0 }
{
    prepared::check_of(&prepared::rate_table(Kind::Plain, rates), cell)
}

// 1 where a duration is above another, else 0.
#[tactic(auto, using(std::proofs::lemmas::Bool::Decides::nat_tests), unfolding(crate::specs::design::Private::one_above))]
fn above(duration: Duration, bound: Duration) -> u8
    ensures value { result ≡ one_above bound.0 duration.0 }
    ensures upper_bound { result ≤ 1 }
{
    u8::from(duration.0 > bound.0)
}

// The group of a duration, 1 to 5: counted, not branched to.
// Kept: a group is a number, since it is counted, used as an index and handed over by C.
pub fn group(duration: Duration) -> u8
    ensures { result ≡ group_of duration.0 }
{
    1 + above(duration, Duration(3))
        + above(duration, Duration(24))
        + above(duration, Duration(60))
        + above(duration, Duration(120))
}

// The last duration of a group; one without a last has 2^32 - 1.
pub fn last_of(group: u8) -> Duration
    ensures { result.0 ≡ last_of group }
{
    match group {
        1 => Duration(3),
        2 => Duration(24),
        3 => Duration(60),
        4 => Duration(120),
        _ => Duration(4294967295),
    }
}

// The last duration of a duration's group; a group without a last has 2^32 - 1.
pub fn group_last(duration: Duration) -> Duration
    ensures { result.0 ≡ group_last duration.0 }
{
    last_of(group(duration))
}
