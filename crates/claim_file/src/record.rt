// A claim's record: 32 bytes at any byte of a list.
ghost use Rattle.std.specs.Prelude.{◌≡◌, ◌+◌, ◌≤◌, length, ◌++◌};
ghost use Rattle.std.proofs.lemmas.List.Edits.{sets};
ghost use Rattle.claim_file.specs.Bytes.{date_bytes};
ghost use Rattle.claim_file.specs.Record.{claim_from, claim_bytes, record_padded};
ghost use Rattle.claim_file.specs.BlockAnswers.{no_claim, has_record, record_in, record_after};

use crate::bytes::{all_zero, date_at, four_at, put_date, put_four, put_two, put_zeros, two_at};
use claim_months::{Claim, NO_DATE};

// A claim of zeros.
pub fn no_claim() -> Claim
    ensures { result ≡ no_claim }
{
    Claim {
        number: 0,
        disability: NO_DATE,
        bcd: NO_DATE,
        termination: NO_DATE,
        maximum: NO_DATE,
        status: 0,
        code: 0,
        cell: 0,
        benefit: 0,
    }
}

// The claim whose record starts at a byte.
#[tactic(auto, unfolding(crate::specs::Record::claim_from, crate::specs::Bytes::byte_at))]
pub(crate) fn claim_from(bytes: &[u8], at: usize) -> Claim
    requires { at + 32 ≤ length bytes.now }
    ensures { result ≡ claim_from bytes.now at }
{
    Claim {
        number: four_at(bytes, at),
        disability: date_at(bytes, at + 4),
        bcd: date_at(bytes, at + 8),
        termination: date_at(bytes, at + 12),
        maximum: date_at(bytes, at + 16),
        status: bytes[at + 20],
        code: bytes[at + 21],
        cell: two_at(bytes, at + 22),
        benefit: bytes[at + 24],
    }
}

// Whether the bytes past the fields of a record are zero.
#[tactic(auto, unfolding(crate::specs::Record::record_padded))]
pub(crate) fn is_padded(bytes: &[u8], at: usize) -> bool
    requires { at + 32 ≤ length bytes.now }
    ensures { result ≡ record_padded bytes.now at }
{
    all_zero(bytes, at + 25, 7)
}

// Whether a list has the 32 bytes of a record at a byte.
fn has_record(at: usize, room: usize) -> bool
    ensures { result ≡ has_record at room }
{
    room >= 32 && at <= room - 32
}

// The claim whose record starts at a byte, if the list has 32 bytes there, zero past the fields.
#[tactic(auto, unfolding(crate::specs::BlockAnswers::record_in))]
pub fn read_record(bytes: &[u8], at: usize) -> Option<Claim>
    ensures { result ≡ record_in bytes.now at }
{
    if !has_record(at, bytes.len()) {
        return None;
    }
    if !is_padded(bytes, at) {
        return None;
    }
    Some(claim_from(bytes, at))
}

// Stores a claim's four dates.
#[tactic(auto, using(basics::proofs::Stores::run))]
fn put_dates(claim: Claim, at: usize, bytes: &mut [u8])
    requires { at + 16 ≤ length bytes.old }
    ensures { bytes.new ≡ sets bytes.old at (date_bytes claim.disability ++ (date_bytes claim.bcd ++ (date_bytes claim.termination ++ date_bytes claim.maximum))) }
{
    put_date(claim.disability, at, bytes);
    put_date(claim.bcd, at + 4, bytes);
    put_date(claim.termination, at + 8, bytes);
    put_date(claim.maximum, at + 12, bytes);
}

// Stores a claim's 32 bytes.
pub(crate) fn put_claim(claim: Claim, at: usize, bytes: &mut [u8])
    requires { at + 32 ≤ length bytes.old }
    ensures { bytes.new ≡ sets bytes.old at (claim_bytes claim) }
{
    put_four(claim.number, at, bytes);
    put_dates(claim, at + 4, bytes);
    bytes[at + 20] = claim.status;
    bytes[at + 21] = claim.code;
    put_two(claim.cell, at + 22, bytes);
    bytes[at + 24] = claim.benefit;
    put_zeros(at + 25, 7, bytes);
}

// Stores a claim's record at a byte if there is room for it, and says whether there is.
#[tactic(auto, unfolding(crate::specs::BlockAnswers::record_after))]
pub fn write_record(claim: Claim, at: usize, bytes: &mut [u8]) -> bool
    ensures value { result ≡ has_record at (length bytes.old) }
    ensures bytes_after { bytes.new ≡ record_after claim at bytes.old }
{
    if !has_record(at, bytes.len()) {
        return false;
    }
    put_claim(claim, at, bytes);
    true
}
