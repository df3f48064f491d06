// The calls for the study of a whole claim file, and for preparing a rate table.
ghost use Rattle.std.specs.Prelude.{◌≡◌};
ghost use Rattle.std.proofs.lemmas.List.Edits.{sets};
ghost use Rattle.rates.specs.declared.Kind.TheVariants.{Prepared};
ghost use Rattle.rates.specs.design.Prepared.{prepare_check, prepare_after};
ghost use Rattle.claim_file.specs.Run.{file_run_with, file_run};
ghost use Rattle.claim_file.specs.design.PreparedRuns.{adding_with};
ghost use Rattle.claim_file.specs.Runs.{run_by_number};
ghost use Rattle.study_list.specs.Lent.{answered, stored};
ghost use Rattle.c_abi.specs.FileCalls.{run_numbers};

use basics::refusal::number_refused;
use claim_file::{FileRun, RunEnd};
use rates::Kind;
use study_list::put_placed;

// Stores number, block and place of a run, and its study, and answers the number.
// Kept: what it answers is the C call's number, and 255 is no `Refusal`. Its twin `put_corrected` is of another type of run: what both share is `put_placed`.
#[tactic(auto, unfolding(crate::specs::FileCalls::run_numbers))]
fn put_run(run: FileRun, out: &mut [i64]) -> u8
    ensures value { result ≡ answered 86 out.old (run_by_number run).refused }
    ensures out_after { out.new ≡ stored 86 out.old (sets out.old 0 (run_numbers (run_by_number run))) }
{
    let end = RunEnd::from(run.stop);
    put_placed(run.study, end.number, end.block, end.place, out)
}

// The study of a whole claim file.
#[unsafe(no_mangle)]
pub extern "C" fn ltd_file_study(file: &[u8], rates: &[u32], out: &mut [i64]) -> u8
    ensures value { result ≡ answered 86 out.old (file_run rates.now file.now).refused }
    ensures out_after { out.new ≡ stored 86 out.old (sets out.old 0 (run_numbers (file_run rates.now file.now))) }
{
    put_run(claim_file::run::run_file(rates, file), out)
}

// Prepares a rate table in place.
#[unsafe(no_mangle)]
pub extern "C" fn ltd_prepare(table: &mut [u32]) -> u8
    ensures value { result ≡ prepare_check table.old }
    ensures table_after { table.new ≡ prepare_after table.old }
{
    number_refused(rates::prepared::prepare(table))
}

// The study of a whole claim file with a prepared table.
#[unsafe(no_mangle)]
pub extern "C" fn ltd_prepared_file_study(file: &[u8], table: &[u32], out: &mut [i64]) -> u8
    ensures value { result ≡ answered 86 out.old (file_run_with (adding_with Prepared table.now) file.now).refused }
    ensures out_after { out.new ≡ stored 86 out.old (sets out.old 0 (run_numbers (file_run_with (adding_with Prepared table.now) file.now))) }
{
    put_run(claim_file::run::run_with(Kind::Prepared, table, file), out)
}
