// Preparing a table in place, and the checks and rates of a table of either kind.
ghost use Rattle.std.specs.Prelude.{◌≡◌, ℕ, ◌+◌, ◌-◌, ◌*◌, ◌≤◌, ◌<◌, min, pos, nat_abs, ◌-ℤ◌, length, get_or};
ghost use Rattle.basics.specs.Limits.{cell_numbers};
ghost use Rattle.basics.specs.Refused.{number_refused};
ghost use Rattle.rates.specs.Rates.{recovery_rate, death_rate};
ghost use Rattle.rates.specs.design.Private.{formed, part_sound_of};
ghost use Rattle.rates.specs.design.Prepared.{running_from, prepared_cell, has_mark, prepare_check, prepare_after, cells_of, sum_before, table_check_of, recovery_of, death_of, rates_over, part_recovery, part_death};

use crate::{Cell, Kind, RateSums, is_table, place_of, sound};
use basics::Duration;
use basics::limits::CELL_NUMBERS;
use basics::refusal::Refusal;

// Replaces numbers by their running sums.
fn run_sums(numbers: &mut [u32])
    requires numbers_len_bound { length numbers.old ≤ 479 }
    requires by_index { (i : ℕ) → get_or numbers.old i 0 ≤ 1000000 }
    ensures { numbers.new ≡ running_from 0 numbers.old }
{
    let mut sum: u32 = 0;
    for number in numbers.iter_mut() {
        sum += *number;
        *number = sum;
    }
}

// Prepares the 958 numbers of a cell.
// Kept: the caller cuts a slice of this length; as an array it would be tested once more, with an answer for a case that can't be.
fn prepare_cell(cell: &mut [u32])
    requires { length cell.old ≡ cell_numbers }
    ensures { cell.new ≡ prepared_cell cell.old }
{
    if !sound(cell) {
        cell[0] = 4294967295;
        return;
    }
    run_sums(&mut cell[0..479]);
    run_sums(&mut cell[479..958]);
}

// Whether a table has the length of a prepared one and a mark.
fn is_marked(table: &[u32], mark: u32) -> bool
    ensures { result ≡ has_mark table.now mark }
{
    match table.split_last() {
        Some((last, numbers)) => is_table(numbers.len()) && *last == mark,
        None => false,
    }
}

// Prepares a table in place, or refuses it with 6 and leaves it as it was.
pub fn prepare(table: &mut [u32]) -> Result<(), Refusal>
    ensures value { number_refused result ≡ prepare_check table.old }
    ensures table_after { table.new ≡ prepare_after table.old }
{
    if !is_marked(table, 0) {
        return Err(Refusal::RateTable);
    }
    let last = table.len() - 1;
    // Kept: of what is written through `chunks_exact_mut` a proof knows no number.
    for cell in 0..last / CELL_NUMBERS {
        let from = cell * CELL_NUMBERS;
        let to = from + CELL_NUMBERS;
        prepare_cell(&mut table[from..to]);
    }
    table[last] = 1;
    Ok(())
}

// A table of either kind, with how many cells it has: looked at once for many claims.
#[derive(Clone, Copy)]
pub struct RateTable<'a> {
    pub kind: Kind,
    pub numbers: &'a [u32],
    cells: u32,
    ghost looked_at: { cells ≡ cells_of kind numbers.now },
}

// Whether a table has the length and the mark of its kind.
#[tactic(auto, unfolding(crate::specs::design::Private::formed))]
fn is_formed(kind: Kind, table: &[u32]) -> bool
    ensures { result ≡ formed kind table.now }
{
    match kind {
        Kind::Plain => is_table(table.len()),
        Kind::Prepared => is_marked(table, 1),
    }
}

// How many cells a table of either kind has; none where its length or its mark is not that of its kind.
fn cells_of(kind: Kind, table: &[u32]) -> u32
    ensures { result ≡ cells_of kind table.now }
{
    if is_formed(kind, table) {
        return (table.len() / CELL_NUMBERS) as u32;
    }
    0
}

// Any numbers looked at as a table of a kind.
pub fn rate_table(kind: Kind, numbers: &[u32]) -> RateTable<'_>
    ensures kind_value { result.kind ≡ kind }
    ensures numbers_value { result.numbers.now ≡ numbers.now }
{
    let cells = cells_of(kind, numbers);
    RateTable {
        kind,
        numbers,
        cells,
    }
}

// Check 8 of a cell's part. Of a prepared table the cell's first number tells.
#[tactic(auto, unfolding(crate::specs::design::Private::part_sound_of))]
fn part_sound(kind: Kind, part: &[u32]) -> bool
    requires { length part.now ≡ cell_numbers }
    ensures { result ≡ part_sound_of kind part.now }
{
    match kind {
        Kind::Plain => sound(part),
        Kind::Prepared => part[0] <= 1000000,
    }
}

// The first of the checks 6 to 8 that fails for a table that was looked at and a cell.
pub fn check_of(table: &RateTable, cell: Cell) -> Result<(), Refusal>
    ensures { number_refused result ≡ table_check_of table.now.kind table.now.numbers.now cell.0 }
{
    if table.cells == 0 {
        return Err(Refusal::RateTable);
    }
    if cell.0 >= table.cells {
        return Err(Refusal::Cell);
    }
    let from = cell.0 as usize * CELL_NUMBERS;
    let to = from + CELL_NUMBERS;
    if part_sound(table.kind, &table.numbers[from..to]) {
        return Ok(());
    }
    Err(Refusal::Rate)
}

// The running sum before a place of the sums that start at a number; 0 before the first.
fn sum_before(part: &[u32; CELL_NUMBERS], at: usize, place: usize) -> u32
    requires { at + place ≤ cell_numbers }
    ensures { pos result ≡ sum_before part.now at place }
{
    if place > 0 {
        return part[at + place - 1];
    }
    0
}

// The difference of two numbers of a table.
fn difference(number: u32, before: u32) -> i64
    ensures { result ≡ pos number -ℤ pos before }
{
    i64::from(number) - i64::from(before)
}

// The sums of a cell's rates at some places from one on: one loop.
fn plain_at(part: &[u32; CELL_NUMBERS], first: usize, months: u16) -> RateSums
    requires { first + months ≤ 479 }
    ensures recoveries_value { result.recoveries ≡ rates_over (λ d. pos (recovery_rate part.now 0 d)) (first + 2) months }
    ensures deaths_value { result.deaths ≡ rates_over (λ d. pos (death_rate part.now 0 d)) (first + 2) months }
{
    let mut recoveries: u64 = 0;
    let mut deaths: u64 = 0;
    // Kept: one index reads both halves of one list; a `zip` has to cut two parts from it first, and says no more.
    for i in 0..months as usize {
        recoveries += part[first + i] as u64;
        deaths += part[479 + first + i] as u64;
    }
    RateSums {
        recoveries: recoveries as i64,
        deaths: deaths as i64,
    }
}

// The same with a part of either kind: of running sums, one difference.
fn rates_at(kind: Kind, part: &[u32; CELL_NUMBERS], first: usize, months: u16) -> RateSums
    requires { first + months ≤ 479 }
    ensures recoveries_value { result.recoveries ≡ rates_over (recovery_of kind part.now 0) (first + 2) months }
    ensures deaths_value { result.deaths ≡ rates_over (death_of kind part.now 0) (first + 2) months }
{
    let end = first + months as usize;
    match kind {
        Kind::Plain => plain_at(part, first, months),
        Kind::Prepared => RateSums {
            recoveries: difference(sum_before(part, 0, end), sum_before(part, 0, first)),
            deaths: difference(sum_before(part, 479, end), sum_before(part, 479, first)),
        },
    }
}

// How many of some months, the first of which has a place, are up to duration 480.
fn months_within(first: usize, months: u16) -> u16
    requires { first < 479 }
    ensures { result ≡ min months (479 - first) }
{
    months.min((479 - first) as u16)
}

// The sums of a cell's rates at some durations from one on, of the cell's part of a table of either kind: past 480 the rates of 480 again with each
// month. A list that isn't of 958 numbers has no rates.
pub fn rates_over(kind: Kind, part: &[u32], from: Duration, months: u16) -> RateSums
    ensures recoveries_value { result.recoveries ≡ rates_over (part_recovery kind part.now) from.0 months }
    ensures deaths_value { result.deaths ≡ rates_over (part_death kind part.now) from.0 months }
    ensures recoveries_bound { nat_abs result.recoveries ≤ 4294967295 * months }
    ensures deaths_bound { nat_abs result.deaths ≤ 4294967295 * months }
{
    let Some(part) = part.as_array::<CELL_NUMBERS>() else {
        return RateSums {
            recoveries: 0,
            deaths: 0,
        };
    };
    let first = place_of(from);
    let within = months_within(first, months);
    let sums = rates_at(kind, part, first, within);
    if within == months {
        return sums;
    }
    let last = rates_at(kind, part, 478, 1);
    let later = (months - within) as i64;
    RateSums {
        recoveries: sums.recoveries + later * last.recoveries,
        deaths: sums.deaths + later * last.deaths,
    }
}
