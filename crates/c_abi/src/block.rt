// The calls that read and write blocks. A claim is the record of a claim file.
ghost use Rattle.std.specs.Prelude.{◌≡◌, ◌*◌, ◌≤◌, eqb, length, take};
ghost use Rattle.std.proofs.lemmas.List.Edits.{sets};
ghost use Rattle.basics.specs.Pick.{pick};
ghost use Rattle.basics.specs.Refused.{number_refused};
ghost use Rattle.claim_file.specs.Record.{all_claim_bytes};
ghost use Rattle.claim_file.specs.BlockAnswers.{window_of, window_after};
ghost use Rattle.study_list.specs.Lent.{answered, stored};
ghost use Rattle.c_abi.specs.Abi.{date_in, date_number};
ghost use Rattle.c_abi.specs.RecordCalls.{read_answer, read_after, all_records, records_read, write_answer, write_after, window_number, dates_stored};

use crate::answers::{NO_FORM_NUMBER, number_answered};
use crate::listing::date_in;
use basics::limits::NO_FORM;
use basics::refusal::{Refusal, number_refused};
use calendar::Date;
use claim_file::Block;
use claim_file::record::{no_claim, read_record, write_record};
use claim_months::Claim;

// A date as one number, low byte first.
// Kept: the sum is the definition's own; by `from_le_bytes` the year has to be cut into bytes first.
fn date_number(date: Date) -> u32
    ensures { result ≡ date_number date }
{
    u32::from(date.year) + 65536 * u32::from(date.month) + 16777216 * u32::from(date.day)
}

// Stores the records of a block's claims from the first byte on.
// Kept: its twin `put_claims` of `claim_file` writes behind a block's head, and is private there: public, it would have to answer for any list.
fn put_records(block: Block, claims: &mut [u8])
    requires in_bounds { 480 ≤ length claims.old }
    requires count_bound { block.count ≤ 15 }
    ensures { claims.new ≡ sets claims.old 0 (all_claim_bytes (take block.count block.claims)) }
{
    for (place, claim) in block.claims[..block.count as usize].iter().enumerate() {
        write_record(*claim, 32 * place, claims);
    }
}

// Reads a claim block at the number due: how many claims, or 2^32 + the number refused.
#[unsafe(no_mangle)]
pub extern "C" fn ltd_read_block(block: &[u8], due: u32, claims: &mut [u8]) -> u64
    ensures value { result ≡ read_answer due block.now claims.old }
    ensures claims_after { claims.new ≡ read_after due block.now claims.old }
{
    if claims.len() < 480 {
        return NO_FORM_NUMBER;
    }
    match claim_file::blocks::read(block, due) {
        Ok(found) => {
            put_records(found, claims);
            u64::from(found.count)
        }
        Err(refusal) => number_answered(Err(refusal)),
    }
}

// Reads the dates of block 0's window.
#[unsafe(no_mangle)]
pub extern "C" fn ltd_read_window(block: &[u8], dates: &mut [u32]) -> u8
    ensures value { result ≡ answered 2 dates.old (window_number (window_of block.now)) }
    ensures dates_after { dates.new ≡ stored 2 dates.old (dates_stored dates.old (window_of block.now)) }
{
    if dates.len() < 2 {
        return NO_FORM;
    }
    match claim_file::blocks::read_window(block) {
        Ok(window) => {
            dates[0] = date_number(window.first);
            dates[1] = date_number(window.last);
            0
        }
        Err(refusal) => u8::from(refusal),
    }
}

// The fifteen places of a block with the claims of the first records in them, if each of these is one.
fn records_read(bytes: &[u8], count: usize) -> Option<[Claim; 15]>
    requires { count ≤ 15 }
    ensures { result ≡ pick (all_records bytes.now count) (Some (records_read bytes.now count)) None }
{
    let mut claims = [no_claim(); 15];
    for (place, claim) in claims[..count].iter_mut().enumerate() {
        *claim = read_record(bytes, 32 * place)?;
    }
    Some(claims)
}

// Writes the records lent as the claim block with a number, or refuses them with 11 and leaves the block as it was.
fn write_records(number: u32, claims: &[u8], block: &mut [u8]) -> Result<(), Refusal>
    ensures value { number_refused result ≡ write_answer number claims.now block.old }
    ensures block_after { block.new ≡ write_after number claims.now block.old }
{
    let records = claims.len() / 32;
    if claims.len() % 32 != 0 {
        return Err(Refusal::Block);
    }
    if records > 15 {
        return Err(Refusal::Block);
    }
    let Some(claims) = records_read(claims, records) else {
        return Err(Refusal::Block);
    };
    let count = records as u8;
    claim_file::blocks::write(number, Block { count, claims }, block)
}

// Writes a claim block of the records lent.
#[unsafe(no_mangle)]
pub extern "C" fn ltd_write_block(number: u32, claims: &[u8], block: &mut [u8]) -> u8
    ensures value { result ≡ write_answer number claims.now block.old }
    ensures block_after { block.new ≡ write_after number claims.now block.old }
{
    number_refused(write_records(number, claims, block))
}

// Writes block 0.
#[unsafe(no_mangle)]
pub extern "C" fn ltd_write_window(first: u32, last: u32, block: &mut [u8]) -> u8
    ensures value { result ≡ pick (eqb (length block.old) 512) 0 11 }
    ensures block_after { block.new ≡ window_after (date_in first) (date_in last) block.old }
{
    number_refused(claim_file::blocks::write_window(date_in(first), date_in(last), block))
}
