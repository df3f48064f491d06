// Claims, claim months and months of exposure (document 01: Claim, Months of exposure).
#![tactic(auto)]

ghost use Rattle.std.specs.Prelude.{◌+◌, ◌≤◌};

pub mod check;
mod dated;
pub mod exposure;
pub mod listing;
mod month;
mod sound_claim;
mod span_months;
pub mod weight;
pub mod windows;

use basics::Duration;
use calendar::{Date, Day};

// A claim, in the fields and widths of the claim file. Any bit pattern is a value.
#[derive(Clone, Copy)]
pub struct Claim {
    pub number: u32,
    pub disability: Date,
    pub bcd: Date,
    pub termination: Date,
    pub maximum: Date,
    // Kept: a byte of the C interface's record, 0 open and 1 closed: every other may come in too, and check 3 refuses it.
    pub status: u8,
    // Kept: likewise, 1 to 6 in a closed claim and 0 in an open one.
    pub code: u8,
    pub cell: u16,
    // In hundreds of dollars a month.
    pub benefit: u8,
}

// A missing date.
pub const NO_DATE: Date = Date {
    year: 0,
    month: 0,
    day: 0,
};

// A window, as two day numbers, both included.
#[derive(Clone, Copy, PartialEq, Eq)]
pub struct Window {
    pub first: Day,
    pub last: Day,
}

// Thirtieths of a month, of U or of B. A unit of its own.
#[derive(Clone, Copy)]
pub struct Thirtieths(pub u32);

// The month records of a claim in a window, as far as a study needs them: they have consecutive durations, and every one
// but the first and the last has 30 thirtieths.
#[derive(Clone, Copy)]
pub struct Span {
    // The first record's duration.
    pub first: Duration,
    // How many records there are.
    pub months: u32,
    // The first record's B.
    pub before: Thirtieths,
    // The last record's U.
    pub through: Thirtieths,
    // The last record's category: 0 unless the claim is closed in the window.
    // Kept: a number, as `specs/` has it in a record and in a span: the sums of the C interface count a closing in the column of that number.
    pub category: u8,
}

// A day with the index of its calendar month, year × 12 + month − 1.
// Kept: `Placed` is no ghost field, since the day after the calendar's last is one too.
#[derive(Clone, Copy)]
struct MonthDay {
    day: Day,
    month: u32,
}

// A window whose days have their months.
// Kept: `SoundWindow` is no ghost field, since the definitions make such a window of any two days.
#[derive(Clone, Copy)]
struct MonthWindow {
    first: MonthDay,
    last: MonthDay,
}

// The day numbers of a claim's dates: no termination of an open claim, and no maximum where it is missing.
#[derive(Clone, Copy)]
struct ClaimDays {
    disability: Day,
    bcd: Day,
    termination: Option<Day>,
    maximum: Option<Day>,
}

// A claim that passed the checks 2 to 5 and 16, as far as its months of exposure need it.
// Kept: `OfClaim` is no ghost field, since the definition `checked_of` makes such a value of any claim, one that fails its checks too.
#[derive(Clone, Copy)]
struct CheckedClaim {
    bcd: MonthDay,
    starts: Starts,
    // The first duration.
    first: Duration,
    // None of an open claim.
    closing: Option<ClaimClosing>,
}

// On which day of a calendar month claim months start: some days after its first or before its last one.
#[derive(Clone, Copy)]
enum Starts {
    After(u32),
    Before(u32),
}

// How a claim was closed.
#[derive(Clone, Copy)]
struct ClaimClosing {
    termination: MonthDay,
    // The termination's day of month is 27 or later.
    late: bool,
    // Kept: a number, as in `Span`; the claim's code where nothing changes it.
    category: u8,
}

// A claim month by its place, 0 for the one that starts on BCD, with its first and last day.
#[derive(Clone, Copy)]
struct ClaimMonth {
    place: u32,
    first: Day,
    last: Day,
    ghost at_most_31_days: { last.0 ≤ first.0 + 30 },
}

// The claim month that holds the first exposed day, by its place, with its first day and its B.
#[derive(Clone, Copy)]
struct BeginMonth {
    place: u32,
    first: Day,
    before: Thirtieths,
}

// The months of a claim in a window, as a span, and the first of them: all zero if there are none.
// Kept: no `Option`, since a span of no months is a public answer, and its count would say the same a second time.
#[derive(Clone, Copy)]
struct ExposedMonths {
    span: Span,
    begin: BeginMonth,
}

// A month record of a listing, with thirtieths `through` − `before`.
#[derive(Clone, Copy)]
struct Row {
    duration: Duration,
    first: MonthDay,
    last: Day,
    through: Thirtieths,
    before: Thirtieths,
    // Kept: a number, as in `Span`: the sixth of a row of the C interface's listing.
    category: u8,
}
