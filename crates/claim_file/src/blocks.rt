// Blocks of 512 bytes: their check, reading and writing.
// Kept: claims are read of a slice with its length in a clause: `as_array` would test once more the length that `is_sound` tested, with an answer for a case that can't be.
ghost use Rattle.std.specs.Prelude.{◌≡◌, ◌+◌, ◌*◌, ◌%◌, ◌<◌, ◌≤◌, length, take, [], ◌∷◌, ◌++◌, eqb};
ghost use Rattle.std.proofs.lemmas.List.Edits.{sets};
ghost use Rattle.basics.specs.Limits.{block_bytes};
ghost use Rattle.claim_file.specs.Bytes.{two, zeros};
ghost use Rattle.claim_file.specs.Record.{all_claim_bytes};
ghost use Rattle.claim_file.specs.Block.{claim_count, block_claim, claims_padded, framed, window_block, claim_block, block_sound, check_number, window_bytes, bytes_of_block};
ghost use Rattle.claim_file.specs.BlockAnswers.{claims_in, block_check, read_of, read_by_number, window_of, write_check, bytes_after, window_after};
ghost use Rattle.basics.specs.Pick.{pick};
ghost use Rattle.basics.specs.Refused.{number_refused, numbered};

use crate::bytes::{all_zero, date_at, put_date, put_two, put_zeros, two_at};
use crate::check_sum::check_sum;
use crate::record::{claim_from, is_padded, no_claim, put_claim};
use crate::{Block, WindowDates};
use basics::limits::BLOCK_BYTES;
use basics::refusal::Refusal;
use calendar::Date;
use claim_months::Claim;

// The claim at a place of a block, from 0.
#[tactic(auto, unfolding(crate::specs::Block::block_claim))]
pub(crate) fn claim_at(bytes: &[u8], place: u8) -> Claim
    requires bytes_len { length bytes.now ≡ block_bytes }
    requires place_bound { place < 15 }
    ensures { result ≡ block_claim bytes.now place }
{
    claim_from(bytes, 16 + 32 * place as usize)
}

// Whether the bytes past the fields of the first claims are zero.
fn claims_padded(bytes: &[u8], count: u8) -> bool
    requires bytes_len { length bytes.now ≡ block_bytes }
    requires count_bound { count ≤ 15 }
    ensures { result ≡ claims_padded bytes.now count }
{
    (0..count).all(|place| is_padded(bytes, 16 + 32 * place as usize))
}

// Whether length, number, check and the zero bytes before 16 are those of the block due.
fn is_framed(bytes: &[u8], due: u32) -> bool
    ensures { result ≡ framed due bytes.now }
{
    let Some(bytes) = bytes.as_array() else {
        return false;
    };
    two_at(bytes, 0) as u32 == due
        && check_sum(bytes) % 65521 == two_at(bytes, 510) as u32
        && all_zero(bytes, 3, 13)
}

// Whether a block is block 0 of a file.
#[tactic(auto, using(crate::proofs::BlockTests::block_size), unfolding(crate::specs::Block::window_block, crate::specs::Block::claim_count, crate::specs::Bytes::byte_at))]
fn is_window_block(bytes: &[u8]) -> bool
    ensures { result ≡ window_block bytes.now }
{
    is_framed(bytes, 0) && bytes[2] == 0 && all_zero(bytes, 24, 486)
}

// Whether a block is the block of claims with the number due.
#[tactic(auto, using(crate::proofs::BlockTests::block_size), unfolding(crate::specs::Block::claim_block, crate::specs::Block::claim_count, crate::specs::Bytes::byte_at))]
fn is_claim_block(bytes: &[u8], due: u32) -> bool
    ensures { result ≡ claim_block due bytes.now }
{
    if !is_framed(bytes, due) {
        return false;
    }
    let count = bytes[2];
    count <= 15
        && claims_padded(bytes, count)
        && all_zero(bytes, 16 + 32 * count as usize, 494 - 32 * count as usize)
}

// Whether a block is sound at the number due.
#[tactic(auto, unfolding(crate::specs::Block::block_sound))]
pub(crate) fn is_sound(bytes: &[u8], due: u32) -> bool
    ensures { result ≡ block_sound due bytes.now }
{
    if due == 0 {
        return is_window_block(bytes);
    }
    is_claim_block(bytes, due)
}

// Whether a block is sound at the number due, else 11.
#[tactic(auto, unfolding(crate::specs::BlockAnswers::block_check))]
pub fn check(bytes: &[u8], due: u32) -> Result<(), Refusal>
    ensures { number_refused result ≡ block_check due bytes.now }
{
    if is_sound(bytes, due) {
        return Ok(());
    }
    Err(Refusal::Block)
}

// The window's dates, of block 0.
#[tactic(auto, using(crate::proofs::BlockTests::block_size), unfolding(crate::specs::BlockAnswers::window_of))]
pub fn read_window(bytes: &[u8]) -> Result<WindowDates, Refusal>
    ensures { numbered result ≡ window_of bytes.now }
{
    if !is_window_block(bytes) {
        return Err(Refusal::Block);
    }
    Ok(WindowDates {
        first: date_at(bytes, 16),
        last: date_at(bytes, 20),
    })
}

// The claims of a sound block, and zeros in the places past them.
fn claims_of(bytes: &[u8], count: u8) -> [Claim; 15]
    requires bytes_len { length bytes.now ≡ block_bytes }
    requires count_bound { (count ≤ 15) × (count ≡ claim_count bytes.now) }
    ensures { result ≡ claims_in bytes.now 0 15 }
{
    let mut claims = [no_claim(); 15];
    // Kept: by `array::from_fn` each of the 15 places is tested against the count.
    for (place, claim) in claims[..count as usize].iter_mut().enumerate() {
        *claim = claim_at(bytes, place as u8);
    }
    claims
}

// The claims of the block with the number due.
#[tactic(auto, using(crate::proofs::BlockTests::block_size), unfolding(crate::specs::BlockAnswers::read_of, crate::specs::Block::claim_count, crate::specs::Bytes::byte_at))]
pub fn read(bytes: &[u8], due: u32) -> Result<Block, Refusal>
    ensures { read_by_number result ≡ read_of due bytes.now }
{
    if due == 0 || !is_claim_block(bytes, due) {
        return Err(Refusal::Block);
    }
    let count = bytes[2];
    let claims = claims_of(bytes, count);
    Ok(Block { count, claims })
}

// Stores the claims of a block from byte 16 on.
fn put_claims(block: Block, bytes: &mut [u8; BLOCK_BYTES])
    requires count_bound { block.count ≤ 15 }
    ensures { bytes.new ≡ sets bytes.old 16 (all_claim_bytes (take block.count block.claims)) }
{
    for (place, claim) in block.claims[..block.count as usize].iter().enumerate() {
        put_claim(*claim, 16 + 32 * place, bytes);
    }
}

// Stores number, count and the zeros before byte 16.
#[tactic(auto, using(basics::proofs::Stores::run), unfolding(crate::specs::Bytes::zeros))]
fn put_head(number: u16, count: u8, bytes: &mut [u8; BLOCK_BYTES])
    ensures { bytes.new ≡ sets bytes.old 0 (two number ++ (count ∷ zeros 13)) }
{
    put_two(number, 0, bytes);
    bytes[2] = count;
    put_zeros(3, 13, bytes);
}

// Stores the check of the bytes before it.
#[tactic(auto, unfolding(crate::specs::Block::check_number))]
fn put_check(bytes: &mut [u8; BLOCK_BYTES])
    ensures { bytes.new ≡ sets bytes.old 510 (two (check_number bytes.old)) }
{
    let check = check_sum(bytes) % 65521;
    put_two(check as u16, 510, bytes);
}

// Stores a whole claim block.
fn put_block(number: u16, block: Block, bytes: &mut [u8; BLOCK_BYTES])
    requires count_bound { block.count ≤ 15 }
    ensures { bytes.new ≡ bytes_of_block number (take block.count block.claims) }
{
    let count = block.count;
    let end = 16 + 32 * count as usize;
    put_head(number, count, bytes);
    put_claims(block, bytes);
    put_zeros(end, 510 - end, bytes);
    put_check(bytes);
}

// Stores block 0 of a window.
fn put_window(first: Date, last: Date, bytes: &mut [u8; BLOCK_BYTES])
    ensures { bytes.new ≡ window_bytes first last }
{
    put_head(0, 0, bytes);
    put_date(first, 16, bytes);
    put_date(last, 20, bytes);
    put_zeros(24, 486, bytes);
    put_check(bytes);
}

// Writes the claim block with a number, or refuses it with 11 and leaves the bytes as they were.
#[tactic(auto, using(std::proofs::lemmas::Bool::Decides::nat_tests), unfolding(crate::specs::BlockAnswers::write_sound, crate::specs::BlockAnswers::write_check, crate::specs::BlockAnswers::bytes_after))]
pub fn write(number: u32, block: Block, bytes: &mut [u8]) -> Result<(), Refusal>
    ensures value { number_refused result ≡ write_check number block.count (length bytes.old) }
    ensures bytes_after { bytes.new ≡ bytes_after number block bytes.old }
{
    if !(1..=65535).contains(&number) || block.count > 15 {
        return Err(Refusal::Block);
    }
    let Some(bytes) = bytes.as_mut_array() else {
        return Err(Refusal::Block);
    };
    put_block(number as u16, block, bytes);
    Ok(())
}

// Writes block 0 of a window, or refuses it with 11 and leaves the bytes as they were.
#[tactic(auto, unfolding(crate::specs::BlockAnswers::window_after))]
pub fn write_window(first: Date, last: Date, bytes: &mut [u8]) -> Result<(), Refusal>
    ensures value { number_refused result ≡ pick (eqb (length bytes.old) block_bytes) 0 11 }
    ensures bytes_after { bytes.new ≡ window_after first last bytes.old }
{
    let Some(bytes) = bytes.as_mut_array() else {
        return Err(Refusal::Block);
    };
    put_window(first, last, bytes);
    Ok(())
}
