// The calls for the run of a whole claim file with corrections (document 02, No. 1), with plain rates or a prepared table.
ghost use Rattle.std.specs.Prelude.{◌≡◌};
ghost use Rattle.std.proofs.lemmas.List.Edits.{sets};
ghost use Rattle.rates.specs.declared.Kind.TheVariants.{Prepared};
ghost use Rattle.claim_file.specs.Corrections.{corrected_run_with, corrected_run};
ghost use Rattle.claim_file.specs.design.PreparedRuns.{adding_with};
ghost use Rattle.claim_file.specs.Runs.{corrected_by_number};
ghost use Rattle.study_list.specs.Lent.{answered, stored};
ghost use Rattle.c_abi.specs.CorrectedCalls.{corrected_numbers};

use claim_file::{CorrectedRun, RunEnd};
use rates::Kind;
use study_list::put_placed;

// Stores number, block and place of a run with corrections, and its study, and answers the number.
// Kept: what it answers is the C call's number, and 255 is no `Refusal`.
#[tactic(auto, unfolding(crate::specs::CorrectedCalls::corrected_numbers))]
fn put_corrected(run: CorrectedRun, out: &mut [i64]) -> u8
    ensures value { result ≡ answered 86 out.old (corrected_by_number run).refused }
    ensures out_after { out.new ≡ stored 86 out.old (sets out.old 0 (corrected_numbers (corrected_by_number run))) }
{
    let end = RunEnd::from(run.stop);
    put_placed(run.study, end.number, end.block, end.place, out)
}

// The study of a whole claim file with corrections.
#[unsafe(no_mangle)]
pub extern "C" fn ltd_corrected_study(file: &[u8], rates: &[u32], out: &mut [i64]) -> u8
    ensures value { result ≡ answered 86 out.old (corrected_run rates.now file.now).refused }
    ensures out_after { out.new ≡ stored 86 out.old (sets out.old 0 (corrected_numbers (corrected_run rates.now file.now))) }
{
    put_corrected(claim_file::corrections::run_corrected(rates, file), out)
}

// The same with a prepared table.
#[unsafe(no_mangle)]
pub extern "C" fn ltd_prepared_corrected_study(file: &[u8], table: &[u32], out: &mut [i64]) -> u8
    ensures value { result ≡ answered 86 out.old (corrected_run_with (adding_with Prepared table.now) file.now).refused }
    ensures out_after { out.new ≡ stored 86 out.old (sets out.old 0 (corrected_numbers (corrected_run_with (adding_with Prepared table.now) file.now))) }
{
    put_corrected(
        claim_file::corrections::run_corrected_with(Kind::Prepared, table, file),
        out,
    )
}
