// The rows of a claim file: its run block by block, and behind each block the claims taken of it are added to the rows.
ghost use Rattle.std.specs.Prelude.{ℕ, ◌≡◌, ◌+◌, ◌*◌, ◌<◌, ◌≤◌, length, Some, None};
ghost use Rattle.std.proofs.lemmas.List.Edits.{sets};
ghost use Rattle.basics.specs.Pick.{pick};
ghost use Rattle.claim_file.specs.Block.{block_claim};
ghost use Rattle.claim_file.specs.BlockAnswers.{record_in};
ghost use Rattle.claim_file.specs.Files.{claims_of_block};
ghost use Rattle.claim_file.specs.Runs.{run_by_number};
ghost use Rattle.by_duration.specs.design.Private.{Fit, raised_by, checked_sum};
ghost use Rattle.by_duration.specs.DurationRuns.{run_for, taken_claims, head_numbers, has_rows, rows_in, durations_answered, durations_after};

use crate::rows::add_rows;
use basics::limits::{BLOCK_BYTES, MOST_ROWS, NO_FORM};
use claim_file::record::read_record;
use claim_file::run::feed_lent;
use claim_file::{FileRun, LentRun, RunEnd};
use claim_months::windows::WindowMonths;
use rates::Kind;

// Adds the first claims of a block to the n rows.
#[inline(always)]
fn add_block(
    kind: Kind,
    table: &[u32],
    window: WindowMonths,
    block: &[u8],
    count: u32,
    n: u32,
    rows: &mut [i64],
)
    requires le_n { 1 ≤ n }
    requires rows_len { length rows.old ≡ 8 * n }
    requires fit { Fit rows.old }
    requires records { (k : ℕ) → k < count → Some (block_claim block.now k) ≡ record_in block.now (16 + 32 * k) }
    ensures { rows.new ≡ raised_by rows.old (checked_sum kind n window.window table.now (claims_of_block block.now 0 count)) }
{
    for place in 0..count {
        if let Some(claim) = read_record(block, 16 + 32 * place as usize) {
            add_rows(kind, table, window, claim, n, rows);
        }
    }
}

// The run of a file, with the claims taken added to the n rows.
#[inline(always)]
fn add_kind(kind: Kind, table: &[u32], file: &[u8], n: u32, rows: &mut [i64]) -> FileRun
    requires le_n { 1 ≤ n }
    requires rows_len { length rows.old ≡ 8 * n }
    requires fit { Fit rows.old }
    ensures run { run_by_number result ≡ run_for kind table.now file.now }
    ensures rows_after { rows.new ≡ raised_by rows.old (checked_sum kind n (run_for kind table.now file.now).study.window table.now (taken_claims file.now (run_for kind table.now file.now))) }
{
    let mut sums = [0; 80];
    let mut run = LentRun::start();
    let mut at = 0;
    while at < file.len() {
        let end = at + (file.len() - at).min(BLOCK_BYTES);
        let block = &file[at..end];
        let before = run.taken;
        run = feed_lent(kind, table, block, run, &mut sums);
        add_block(kind, table, run.window, block, run.taken - before, n, rows);
        at = end;
    }
    run.end().with_sums(sums)
}

// The same for callers: code of its own for each kind, as in `claim_file::run::feed_lent`.
fn add_file(kind: Kind, table: &[u32], file: &[u8], n: u32, rows: &mut [i64]) -> FileRun
    requires le_n { 1 ≤ n }
    requires rows_len { length rows.old ≡ 8 * n }
    requires fit { Fit rows.old }
    ensures run { run_by_number result ≡ run_for kind table.now file.now }
    ensures rows_after { rows.new ≡ raised_by rows.old (checked_sum kind n (run_for kind table.now file.now).study.window table.now (taken_claims file.now (run_for kind table.now file.now))) }
{
    match kind {
        Kind::Plain => add_kind(Kind::Plain, table, file, n, rows),
        Kind::Prepared => add_kind(Kind::Prepared, table, file, n, rows),
    }
}

// How many rows a list of this length has behind the first four numbers.
fn row_count(len: usize) -> Option<u32>
    ensures { result ≡ pick (has_rows len) (Some (rows_in len)) None }
{
    let n = len.saturating_sub(4) / 8;
    if n < 1 || n > MOST_ROWS || len != 4 + 8 * n {
        return None;
    }
    Some(n as u32)
}

// Stores number, block and place of a run, and the claims taken.
fn put_head(run: FileRun, out: &mut [i64])
    requires { 4 ≤ length out.old }
    ensures { out.new ≡ sets out.old 0 (head_numbers (run_by_number run)) }
{
    let end = RunEnd::from(run.stop);
    out[0] = i64::from(end.number);
    out[1] = i64::from(end.block);
    out[2] = i64::from(end.place);
    out[3] = i64::from(run.study.taken);
}

// The rows of a whole claim file behind number, block, place and claims taken, and the number; 255, and nothing is written, of a list of another length.
// Kept: what it answers is the C call's number, and 255 is no `Refusal`.
pub fn durations(kind: Kind, table: &[u32], file: &[u8], out: &mut [i64]) -> u8
    ensures value { result ≡ durations_answered kind table.now file.now out.old }
    ensures out_after { out.new ≡ durations_after kind table.now file.now out.old }
{
    let len = out.len();
    let Some(n) = row_count(len) else {
        return NO_FORM;
    };
    let rows = &mut out[4..len];
    rows.fill(0);
    let run = add_file(kind, table, file, n, rows);
    put_head(run, out);
    RunEnd::from(run.stop).number
}
