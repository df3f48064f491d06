// A study as a list of 83 numbers, for the calls of C and Rust: first day, last day, claims taken, then its 80 sums.
#![tactic(auto)]

ghost use Rattle.std.specs.Prelude.{◌≡◌, ◌+◌, ◌≤◌, [], ◌∷◌, pos, length};
ghost use Rattle.std.proofs.lemmas.List.Edits.{sets};
ghost use Rattle.study_list.specs.StudyList.{study_numbers, placed_numbers};
ghost use Rattle.study_list.specs.Lent.{answered, stored};

use basics::limits::NO_FORM;
use study::Study;

// A number as a signed one.
// Kept: `i64::from` under a name of its own, since it is public.
pub fn signed(number: u32) -> i64
    ensures { result ≡ pos number }
{
    i64::from(number)
}

// Stores three numbers where they fit.
fn store_three(first: u32, second: u32, third: u32, at: usize, out: &mut [i64])
    requires { at + 3 ≤ length out.old }
    ensures { out.new ≡ sets out.old at (pos first ∷ pos second ∷ pos third ∷ []) }
{
    out[at] = signed(first);
    out[at + 1] = signed(second);
    out[at + 2] = signed(third);
}

// Stores a study's 83 numbers where they fit.
fn store_study(study: Study, at: usize, out: &mut [i64])
    requires { at + 83 ≤ length out.old }
    ensures { out.new ≡ sets out.old at (study_numbers study) }
{
    store_three(
        study.window.first.0,
        study.window.last.0,
        study.taken,
        at,
        out,
    );
    out[at + 3..at + 83].copy_from_slice(&study.sums);
}

// Stores a study's 83 numbers from the first place on, and answers the number; 255, and nothing is written, where they don't fit.
// Kept: what it answers is the C call's number, and 255 is no `Refusal`.
pub fn put_study(study: Study, refused: u8, out: &mut [i64]) -> u8
    ensures value { result ≡ answered 83 out.old refused }
    ensures out_after { out.new ≡ stored 83 out.old (sets out.old 0 (study_numbers study)) }
{
    if out.len() < 83 {
        return NO_FORM;
    }
    store_study(study, 0, out);
    refused
}

// The same of number, block and place of a run, and its study behind them.
pub fn put_placed(study: Study, refused: u8, block: u32, place: u8, out: &mut [i64]) -> u8
    ensures value { result ≡ answered 86 out.old refused }
    ensures out_after { out.new ≡ stored 86 out.old (sets out.old 0 (placed_numbers refused block place study)) }
{
    if out.len() < 86 {
        return NO_FORM;
    }
    store_three(u32::from(refused), block, u32::from(place), 0, out);
    store_study(study, 3, out);
    refused
}
