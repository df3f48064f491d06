// The exposure study (document 01: Study): its types, and opening it.
#![tactic(auto)]

ghost use Rattle.std.specs.Prelude.{◌≡◌};
ghost use Rattle.study.specs.Answers.{by_number};
ghost use Rattle.study.specs.Study.{fresh, opened};

pub mod adding;
mod amounts;
mod bounds;
pub mod expected;
mod joining;
mod pairs;
mod share;
pub mod sums;
mod withdrawing;

use basics::refusal::Refusal;
use calendar::{Date, Day};
use claim_months::Window;

// A study: its window, the claims taken, and their sums, as `sums` has them.
#[derive(Clone, Copy, PartialEq, Eq)]
pub struct Study {
    pub window: Window,
    pub taken: u32,
    pub sums: [i64; 80],
}

// A study handed back, with the first check that failed, if one did.
// Kept: the definitions hand a study back with each refusal, and an opening one of its own; a `Result` has none beside its error.
#[derive(Clone, Copy)]
pub struct Answer {
    pub refused: Option<Refusal>,
    pub study: Study,
}

// A study with no claims taken and zero sums.
#[tactic(auto, unfolding(crate::specs::Study::fresh, crate::specs::Sums::none, basics::specs::Tables::table))]
fn fresh_study(window: Window) -> Study
    ensures { result ≡ fresh window }
{
    Study {
        window,
        taken: 0,
        sums: [0; 80],
    }
}

impl Study {
    // A fresh study of the window between two dates. A refused opening gives the window 1950-01-01 alone.
    #[tactic(auto, unfolding(crate::specs::Study::opened, crate::specs::Study::opened_with))]
    pub fn open(first: Date, last: Date) -> Answer
        ensures { by_number result ≡ opened first last }
    {
        match claim_months::windows::window(first, last) {
            Ok(window) => Answer {
                refused: None,
                study: fresh_study(window),
            },
            Err(refusal) => Answer {
                refused: Some(refusal),
                study: fresh_study(Window {
                    first: Day(0),
                    last: Day(0),
                }),
            },
        }
    }
}
