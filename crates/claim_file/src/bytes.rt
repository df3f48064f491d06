// Numbers, dates and zeros at a byte of a list, low byte first.
// Kept: a list travels with a byte's place: a struct of both would be made anew for each field of a record. Each width has its own functions, since each is one call of std's for its type.
ghost use Rattle.std.specs.Prelude.{◌≡◌, ◌+◌, ◌/◌, ◌%◌, ◌<◌, ◌≤◌, length, ◌++◌};
ghost use Rattle.std.proofs.lemmas.List.Edits.{sets};
ghost use Rattle.claim_file.specs.Bytes.{two_at, four_at, date_from, zero_from, two, date_bytes, zeros};

use calendar::Date;

// A number of two bytes, low byte first.
#[tactic(auto, unfolding(crate::specs::Bytes::two_at, crate::specs::Bytes::byte_at))]
pub(crate) fn two_at(bytes: &[u8], at: usize) -> u16
    requires { at + 1 < length bytes.now }
    ensures { result ≡ two_at bytes.now at }
{
    u16::from_le_bytes([bytes[at], bytes[at + 1]])
}

// A number of four bytes, low byte first.
#[tactic(auto, unfolding(crate::specs::Bytes::four_at, crate::specs::Bytes::two_at, crate::specs::Bytes::byte_at))]
pub(crate) fn four_at(bytes: &[u8], at: usize) -> u32
    requires { at + 3 < length bytes.now }
    ensures { result ≡ four_at bytes.now at }
{
    u32::from_le_bytes([bytes[at], bytes[at + 1], bytes[at + 2], bytes[at + 3]])
}

// The date that stands at a byte.
#[tactic(auto, unfolding(crate::specs::Bytes::date_from, crate::specs::Bytes::byte_at))]
pub(crate) fn date_at(bytes: &[u8], at: usize) -> Date
    requires { at + 3 < length bytes.now }
    ensures { result ≡ date_from bytes.now at }
{
    Date {
        year: two_at(bytes, at),
        month: bytes[at + 2],
        day: bytes[at + 3],
    }
}

// Whether the bytes of a part are zero.
#[tactic(auto, unfolding(crate::specs::Bytes::zero_from))]
pub(crate) fn all_zero(bytes: &[u8], from: usize, count: usize) -> bool
    requires { from + count ≤ length bytes.now }
    ensures { result ≡ zero_from bytes.now from count }
{
    let mut all = 0;
    for byte in &bytes[from..from + count] {
        all |= *byte;
    }
    all == 0
}

// Stores a number in two bytes, low byte first.
pub(crate) fn put_two(value: u16, at: usize, bytes: &mut [u8])
    requires { at + 2 ≤ length bytes.old }
    ensures { bytes.new ≡ sets bytes.old at (two value) }
{
    bytes[at..at + 2].copy_from_slice(&value.to_le_bytes());
}

// Stores a number in four bytes, low byte first.
pub(crate) fn put_four(value: u32, at: usize, bytes: &mut [u8])
    requires { at + 4 ≤ length bytes.old }
    ensures { bytes.new ≡ sets bytes.old at (two (value % 65536) ++ two (value / 65536)) }
{
    bytes[at..at + 4].copy_from_slice(&value.to_le_bytes());
}

// Stores a date's four bytes.
#[tactic(auto, using(basics::proofs::Stores::run))]
pub(crate) fn put_date(date: Date, at: usize, bytes: &mut [u8])
    requires { at + 4 ≤ length bytes.old }
    ensures { bytes.new ≡ sets bytes.old at (date_bytes date) }
{
    put_two(date.year, at, bytes);
    bytes[at + 2] = date.month;
    bytes[at + 3] = date.day;
}

// Stores zeros.
pub(crate) fn put_zeros(from: usize, count: usize, bytes: &mut [u8])
    requires { from + count ≤ length bytes.old }
    ensures { bytes.new ≡ sets bytes.old from (zeros count) }
{
    bytes[from..from + count].fill(0);
}
