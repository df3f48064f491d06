// Adding a claim to a study.
ghost use Rattle.std.specs.Prelude.{◌≡◌};
ghost use Rattle.basics.specs.Refused.{number_of, number_refused};
ghost use Rattle.study.specs.Answers.{by_number};
ghost use Rattle.study.specs.Study.{added};
ghost use Rattle.study.specs.design.PreparedAdding.{lent_study, added_with};
ghost use Rattle.study.specs.design.LentAdding.{added_to_lent};
ghost use Rattle.study.specs.design.Private.{span_number, span_sums};

use crate::share::Share;
use crate::sums::has_room;
use crate::{Answer, Study};
use basics::limits::{CELL_NUMBERS, MOST_CLAIMS};
use basics::refusal::Refusal;
use claim_months::Claim;
use claim_months::weight::weight_of;
use claim_months::windows::{WindowMonths, window_months};
use rates::prepared::{RateTable, check_of, rate_table};
use rates::{Cell, Kind};

// The checks 6 to 9, told whether the lent sums are within their bounds, and a sound claim's share added to them.
#[inline(always)]
fn add_span(
    table: &RateTable,
    cell: Cell,
    share: Share,
    taken: u32,
    room: bool,
    sums: &mut [i64; 80],
) -> Result<(), Refusal>
    ensures value { number_refused result ≡ span_number taken room table.now.kind table.now.numbers.now cell.0 }
    ensures sums_after { sums.new ≡ span_sums taken room sums.old table.now.kind table.now.numbers.now cell.0 share.span share.weight }
{
    check_of(table, cell)?;
    if taken >= MOST_CLAIMS || !room {
        return Err(Refusal::Full);
    }
    let from = cell.0 as usize * CELL_NUMBERS;
    let to = from + CELL_NUMBERS;
    share.add(table.kind, &table.numbers[from..to], sums);
    Ok(())
}

// Adds a claim to a study whose sums are lent, told whether they are within the bounds of refusal 9; table and window were looked at before. A refusal
// leaves the sums as they were.
#[inline(always)]
pub fn add_to(
    table: &RateTable,
    claim: Claim,
    window: WindowMonths,
    taken: u32,
    room: bool,
    sums: &mut [i64; 80],
) -> Result<(), Refusal>
    ensures value { number_refused result ≡ (added_to_lent room table.now.kind table.now.numbers.now claim (lent_study window.window taken sums.old)).refused }
    ensures sums_after { sums.new ≡ (added_to_lent room table.now.kind table.now.numbers.now claim (lent_study window.window taken sums.old)).study.sums }
{
    let span = claim_months::exposure::span_in(claim, window)?;
    let cell = claim.cell as u32;
    let weight = weight_of(claim);
    let share = Share { span, weight };
    add_span(table, Cell(cell), share, taken, room, sums)
}

impl Study {
    // The study as given, refused.
    pub(crate) fn refused(self, refusal: Refusal) -> Answer
        ensures { by_number result ≡ record { refused = number_of refusal; study = self } }
    {
        Answer {
            refused: Some(refusal),
            study: self,
        }
    }

    // The study with a claim added, with a table of either kind, or as given with the number of the first check that failed.
    pub fn add_with(self, kind: Kind, table: &[u32], claim: Claim) -> Answer
        ensures { by_number result ≡ added_with kind self claim table.now }
    {
        let mut sums = self.sums;
        let table = rate_table(kind, table);
        let window = window_months(self.window);
        let room = has_room(&sums);
        if let Err(refusal) = add_to(&table, claim, window, self.taken, room, &mut sums) {
            return self.refused(refusal);
        }
        Answer {
            refused: None,
            study: Study {
                taken: self.taken + 1,
                sums,
                ..self
            },
        }
    }

    // The same with plain rates.
    pub fn add(self, claim: Claim, rates: &[u32]) -> Answer
        ensures { by_number result ≡ added self claim rates.now }
    {
        self.add_with(Kind::Plain, rates, claim)
    }
}
