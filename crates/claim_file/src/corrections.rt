// The run with corrections (document 02, No. 1): every block is checked, then the window and the number of records, and then the records that no
// later one corrects are added, in file order.
ghost use Rattle.std.specs.Prelude.{◌≡◌, true, ◌/◌, ◌≤◌, length};
ghost use Rattle.basics.specs.Limits.{block_bytes, most_records};
ghost use Rattle.basics.specs.Refused.{number_of};
ghost use Rattle.study.specs.design.PreparedAdding.{lent_study};
ghost use Rattle.claim_file.specs.Corrections.{file_records, sound_blocks, sound_all, last_ones, records_added, corrected_run_with, corrected_run};
ghost use Rattle.claim_file.specs.design.PreparedRuns.{adding_with};
ghost use Rattle.claim_file.specs.Runs.{corrected_by_number};
ghost use Rattle.claim_file.specs.design.Marks.{numbers_of, MarksStruck, unsound_at};

use crate::blocks::{claim_at, is_sound};
use crate::bytes::date_at;
use crate::run::has_spare;
use crate::struck::{Marks, is_marked, mark_struck, record_count};
use crate::{CorrectedRun, FileRun, Stop};
use basics::limits::{BLOCK_BYTES, MOST_RECORDS};
use basics::refusal::Refusal;
use claim_months::windows::window_months;
use rates::Kind;
use rates::prepared::rate_table;
use study::Study;
use study::adding::add_to;
use study::sums::has_still_room;

// How many of a file's whole blocks are sound, up to the first that isn't.
#[tactic(auto, using(crate::proofs::CorrectedRuns::sound_steps), unfolding(crate::specs::Bytes::byte_at))]
fn sound_blocks(file: &[u8]) -> u32
    ensures { result ≡ sound_blocks 0 file.now (length file.now / block_bytes) }
{
    // Kept: the count answered has 32 bits and a `for` over the blocks 64; that it fits is known of sound blocks, whose numbers have 16, and not of the file's length.
    let mut due: u32 = 0;
    while (due as usize) < file.len() / BLOCK_BYTES {
        let at = BLOCK_BYTES * due as usize;
        if !is_sound(&file[at..at + BLOCK_BYTES], due) {
            return due;
        }
        due += 1;
    }
    due
}

// A run with a study that was refused at a place.
fn refused(study: Study, refusal: Refusal, block: u32, place: u8) -> CorrectedRun
    ensures { corrected_by_number result ≡ record { study = study; refused = number_of refusal; block = block; place = place } }
{
    let stop = Stop {
        refusal,
        block,
        place,
    };
    CorrectedRun {
        study,
        stop: Some(stop),
    }
}

// A run refused at a block that isn't sound: no study is opened.
#[tactic(auto, unfolding(crate::specs::design::Marks::unsound_at, crate::specs::Run::started))]
fn unsound_at(block: u32) -> CorrectedRun
    ensures { corrected_by_number result ≡ unsound_at block }
{
    refused(FileRun::start().study, Refusal::Block, block, 0)
}

// A study of the same window with other claims taken.
fn with_sums(study: Study, taken: u32, sums: [i64; 80]) -> Study
    ensures { result ≡ lent_study study.window taken sums }
{
    Study {
        taken,
        sums,
        ..study
    }
}

// The records that are not marked, added to a study up to the first refusal. The sums are looked at once for all records of a block where these can't
// take one past its bound, as in a file run.
fn add_kept(kind: Kind, table: &[u32], file: &[u8], marks: &Marks, study: Study) -> CorrectedRun
    requires file_value { sound_all file.now ≡ true }
    requires file_len_bound { length (file_records file.now) ≤ most_records }
    requires marks_struck { MarksStruck marks.now (numbers_of (file_records file.now)) }
    ensures { corrected_by_number result ≡ records_added (adding_with kind table.now) study (last_ones (file_records file.now)) }
{
    let table = rate_table(kind, table);
    let window = window_months(study.window);
    let mut sums = study.sums;
    let mut taken = study.taken;
    let mut next = 0;
    let mut block: u32 = 1;
    // Kept: the two loops of the file run; a block's number has 32 bits, as above.
    while (block as usize) < file.len() / BLOCK_BYTES {
        let at = BLOCK_BYTES * block as usize;
        let bytes = &file[at..at + BLOCK_BYTES];
        let count = bytes[2];
        let spare = has_spare(count, &sums);
        for place in 0..count {
            let index = next;
            next += 1;
            if is_marked(marks, index) {
                continue;
            }
            let claim = claim_at(bytes, place);
            let room = has_still_room(spare, &sums);
            if let Err(refusal) = add_to(&table, claim, window, taken, room, &mut sums) {
                return refused(with_sums(study, taken, sums), refusal, block, place + 1);
            }
            taken += 1;
        }
        block += 1;
    }
    CorrectedRun {
        study: with_sums(study, taken, sums),
        stop: None,
    }
}

// The run of a whole file with corrections, with a table of either kind.
pub fn run_corrected_with(kind: Kind, table: &[u32], file: &[u8]) -> CorrectedRun
    ensures { corrected_by_number result ≡ corrected_run_with (adding_with kind table.now) file.now }
{
    let sound = sound_blocks(file);
    if sound == 0 {
        return unsound_at(sound);
    }
    if BLOCK_BYTES * sound as usize != file.len() {
        return unsound_at(sound);
    }
    let answer = Study::open(date_at(file, 16), date_at(file, 20));
    let study = answer.study;
    if let Some(refusal) = answer.refused {
        return refused(study, refusal, 0, 0);
    }
    if record_count(file) > MOST_RECORDS {
        return refused(study, Refusal::TooManyRecords, 0, 0);
    }
    let mut marks = [0; 7500];
    mark_struck(file, &mut marks);
    add_kept(kind, table, file, &marks, study)
}

// The same with plain rates.
pub fn run_corrected(rates: &[u32], file: &[u8]) -> CorrectedRun
    ensures { corrected_by_number result ≡ corrected_run rates.now file.now }
{
    run_corrected_with(Kind::Plain, rates, file)
}
