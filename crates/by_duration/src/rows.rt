// The rows of claims: each month of a claim's span is added to its duration's row, and its closing month counted there.
// Kept: each function asks for the length of the lent `rows` and for `fit`; a struct of both has a lifetime, and both to prove after each raise.
ghost use Rattle.std.specs.Prelude.{◌≡◌, ◌+◌, ◌-◌, ◌*◌, ◌<◌, ◌≤◌, List, length, get_or, ℤ, pos, nat_abs, ◌-ℤ◌, ◌*ℤ◌};
ghost use Rattle.basics.specs.Limits.{cell_numbers};
ghost use Rattle.claim_months.specs.Span.{SpanBounds};
ghost use Rattle.rates.specs.design.Prepared.{part_recovery, part_death};
ghost use Rattle.rates.specs.declared.Kind.TheVariants.{Prepared};
ghost use Rattle.by_duration.specs.Rows.{row_of};
ghost use Rattle.by_duration.specs.design.Private.{Fit, raised_by, month_amount, span_months, WholeTo, span_closings, span_figure, checked_figure};

use crate::wrapping::raise;
use basics::Duration;
use basics::limits::{CELL_NUMBERS, LAST_DURATION};
use claim_months::windows::WindowMonths;
use claim_months::{Claim, Span};
use rates::{Cell, Kind, RateSums};
use study::expected::month_expected;

// The row of a duration among n.
#[tactic(auto, unfolding(crate::specs::Rows::row_of))]
fn row_of(n: u32, duration: Duration) -> u32
    ensures { result ≡ row_of n duration.0 }
{
    duration.0.min(n)
}

// Adds a month to its row: its thirtieths, and these times both rates.
// Kept: `fit`, here and below, as a proof doesn't know of every number of a lent list of signed ones that it fits.
fn add_month(rows: &mut [i64], row: usize, thirtieths: i64, expected: RateSums)
    requires le_row { 1 ≤ row }
    requires row_in_bounds { 8 * row ≤ length rows.old }
    requires fit { Fit rows.old }
    ensures { rows.new ≡ raised_by rows.old (month_amount row thirtieths expected.recoveries expected.deaths) }
{
    let at = 8 * (row - 1);
    raise(rows, at, thirtieths);
    raise(rows, at + 6, expected.recoveries);
    raise(rows, at + 7, expected.deaths);
}

// The number at a place less the one before it: of running sums the rate there.
fn rise(part: &[u32], at: usize) -> i64
    requires at_low { 0 < at }
    requires at_high { at < length part.now }
    ensures value { result ≡ pos (get_or part.now at 0) -ℤ pos (get_or part.now (at - 1) 0) }
    ensures size { nat_abs result ≤ 4294967295 }
{
    i64::from(part[at]) - i64::from(part[at - 1])
}

// Thirtieths times that.
fn whole_rate(part: &[u32], at: usize, thirtieths: i64) -> i64
    requires at_low { 0 < at }
    requires at_high { at < length part.now }
    requires thirtieths_high { nat_abs thirtieths ≤ 30 }
    ensures { result ≡ (pos (get_or part.now at 0) -ℤ pos (get_or part.now (at - 1) 0)) *ℤ thirtieths }
{
    rise(part, at) * thirtieths
}

// What a month's thirtieths expect at a duration from 3 to 480, with a cell's part of a prepared table.
fn whole_expected(part: &[u32], duration: usize, thirtieths: i64) -> RateSums
    requires part_len { length part.now ≡ cell_numbers }
    requires duration_low { 3 ≤ duration }
    requires duration_high { duration ≤ 480 }
    requires thirtieths_high { nat_abs thirtieths ≤ 30 }
    ensures recoveries_value { result.recoveries ≡ part_recovery Prepared part.now duration *ℤ thirtieths }
    ensures deaths_value { result.deaths ≡ part_death Prepared part.now duration *ℤ thirtieths }
{
    RateSums {
        recoveries: whole_rate(part, duration - 2, thirtieths),
        deaths: whole_rate(part, 477 + duration, thirtieths),
    }
}

// A span to be added to n rows.
#[derive(Clone, Copy)]
struct RowSpan {
    span: Span,
    n: u32,
    ghost span_bounds: { SpanBounds span },
    ghost le_n: { 1 ≤ n },
}

impl RowSpan {
    // Adds a month of the span, behind those before it: with its thirtieths and the rates of its duration.
    fn add_one(self, kind: Kind, part: &[u32], month: u32, rows: &mut [i64])
        requires in_span { month < self.span.months }
        requires rows_len { length rows.old ≡ 8 * self.n }
        requires fit { Fit rows.old }
        ensures fit_after { Fit rows.new }
        ensures rows_after { (s : List ℤ) → rows.old ≡ raised_by s (span_months (part_recovery kind part.now) (part_death kind part.now) self.n self.span month)
            → rows.new ≡ raised_by s (span_months (part_recovery kind part.now) (part_death kind part.now) self.n self.span (month + 1)) }
    {
        let span = self.span;
        let duration = Duration(span.first.0 + month);
        let thirtieths = span.thirtieths(month);
        let expected = month_expected(kind, part, duration, thirtieths as i32);
        let row = row_of(self.n, duration);
        add_month(rows, row as usize, thirtieths, expected);
    }

    // Adds the span's months from one on, behind those before it.
    fn add_from(self, kind: Kind, part: &[u32], from: u32, rows: &mut [i64])
        requires from_le_months { from ≤ self.span.months }
        requires rows_len { length rows.old ≡ 8 * self.n }
        requires fit { Fit rows.old }
        ensures { (s : List ℤ) → rows.old ≡ raised_by s (span_months (part_recovery kind part.now) (part_death kind part.now) self.n self.span from)
            → rows.new ≡ raised_by s (span_months (part_recovery kind part.now) (part_death kind part.now) self.n self.span self.span.months) }
    {
        for month in from..self.span.months {
            self.add_one(kind, part, month, rows);
        }
    }

    // Before which month `add_whole` stops.
    fn whole_to(self, kind: Kind, part: &[u32]) -> u32
        requires { 1 ≤ self.span.months }
        ensures { WholeTo kind part.now self.n self.span result }
    {
        let Kind::Prepared = kind else {
            return 1;
        };
        if part.len() != CELL_NUMBERS {
            return 1;
        }
        let last = self.n.min(LAST_DURATION);
        let whole = (last + 1).saturating_sub(self.span.first.0);
        whole.min(self.span.months - 1).max(1)
    }

    // Adds the span's months from the second on that are whole and have rows of their own, of a prepared table: two at a time, without a test. Answers
    // how many of its months are added then.
    fn add_whole(self, kind: Kind, part: &[u32], rows: &mut [i64]) -> u32
        requires le_months { 1 ≤ self.span.months }
        requires rows_len { length rows.old ≡ 8 * self.n }
        requires fit { Fit rows.old }
        ensures low { 1 ≤ result }
        ensures high { result ≤ self.span.months }
        ensures rows_after { (s : List ℤ) → rows.old ≡ raised_by s (span_months (part_recovery kind part.now) (part_death kind part.now) self.n self.span 1)
            → rows.new ≡ raised_by s (span_months (part_recovery kind part.now) (part_death kind part.now) self.n self.span result) }
    {
        let first = self.span.first.0 as usize;
        let pairs = (self.whole_to(kind, part) - 1) / 2;
        // Kept: all have 30, but a number that the compiler doesn't know is multiplied by in one instruction, and 30 in three.
        let thirtieths = self.span.thirtieths(1);
        for pair in 0..pairs as usize {
            let duration = first + 1 + 2 * pair;
            let expected = whole_expected(part, duration, thirtieths);
            let next = whole_expected(part, duration + 1, thirtieths);
            add_month(rows, duration, thirtieths, expected);
            add_month(rows, duration + 1, thirtieths, next);
        }
        1 + 2 * pairs
    }

    // Adds the span's months to the rows, with the rates of its cell's part: most of them by `add_whole` where the table is prepared.
    fn add_months(self, kind: Kind, part: &[u32], rows: &mut [i64])
        requires rows_len { length rows.old ≡ 8 * self.n }
        requires fit { Fit rows.old }
        ensures { rows.new ≡ raised_by rows.old (span_months (part_recovery kind part.now) (part_death kind part.now) self.n self.span self.span.months) }
    {
        if self.span.months == 0 {
            return;
        }
        self.add_one(kind, part, 0, rows);
        let to = self.add_whole(kind, part, rows);
        self.add_from(kind, part, to, rows);
    }

    // Counts the span's closing month, if it has one, in its duration's row under its category.
    fn add_closing(self, rows: &mut [i64])
        requires rows_len { length rows.old ≡ 8 * self.n }
        requires fit { Fit rows.old }
        ensures { rows.new ≡ raised_by rows.old (span_closings self.n self.span) }
    {
        let span = self.span;
        let category = span.category;
        if category == 0 {
            return;
        }
        let row = row_of(self.n, Duration(span.first.0 + (span.months - 1)));
        raise(rows, 8 * (row as usize - 1) + category as usize, 1);
    }

    // Adds the span to the rows, if the table has its cell. The rates were checked where the claim was taken: here the length alone is asked for.
    fn add(self, kind: Kind, table: &[u32], cell: Cell, rows: &mut [i64])
        requires rows_len { length rows.old ≡ 8 * self.n }
        requires fit { Fit rows.old }
        ensures { rows.new ≡ raised_by rows.old (span_figure kind self.n table.now cell.0 self.span) }
    {
        let from = cell.0 as usize * CELL_NUMBERS;
        let to = from + CELL_NUMBERS;
        if let Some(part) = table.get(from..to) {
            self.add_months(kind, part, rows);
            self.add_closing(rows);
        }
    }
}

// Adds a claim to the n rows, if it passes the checks 1 to 5 and the table has its cell.
pub(crate) fn add_rows(
    kind: Kind,
    table: &[u32],
    window: WindowMonths,
    claim: Claim,
    n: u32,
    rows: &mut [i64],
)
    requires le_n { 1 ≤ n }
    requires rows_len { length rows.old ≡ 8 * n }
    requires fit { Fit rows.old }
    ensures { rows.new ≡ raised_by rows.old (checked_figure kind n window.window table.now claim) }
{
    if let Ok(span) = claim_months::exposure::span_in(claim, window) {
        RowSpan { span, n }.add(kind, table, Cell(u32::from(claim.cell)), rows);
    }
}
