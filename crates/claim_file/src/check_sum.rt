// The sum behind check 11 (document 01: Claim file) by columns, each half of a block in 16 rows of 16 bytes: 16 bits hold a column's numbers, so that
// vector code adds eight columns at once.
// Kept: all go by column, as the definitions do. `from_fn` could make the rows of two, and the sums would stay loops. So a block takes 403 instructions,
// where one loop over the bytes took 1,294 (MEASURED.md).
ghost use Rattle.std.specs.Prelude.{◌≡◌, true, ◌+◌, ◌≤◌, length};
ghost use Rattle.basics.specs.Tables.{all_at_most};
ghost use Rattle.claim_file.specs.Block.{check_sum};
ghost use Rattle.claim_file.specs.design.Private.{row_at, plus_row, columns_sum};

use basics::limits::BLOCK_BYTES;

// A row: the 16 bytes from a place on.
fn row_at(bytes: &[u8], at: usize) -> [u16; 16]
    requires { at + 16 ≤ length bytes.now }
    ensures value { result ≡ row_at bytes.now at }
    ensures result_value { all_at_most 255 result ≡ true }
{
    let mut row = [0; 16];
    for column in 0..16 {
        row[column] = bytes[at + column] as u16;
    }
    row
}

// Each number of a row plus another's.
#[tactic(auto, using(basics::proofs::Tables::filled_more))]
fn plus_row(a: &[u16; 16], b: &[u16; 16]) -> [u16; 16]
    requires { all_at_most 65535 (plus_row a.now b.now) ≡ true }
    ensures { result ≡ plus_row a.now b.now }
{
    let mut row = [0; 16];
    for column in 0..16 {
        row[column] = a[column] + b[column];
    }
    row
}

// What 16 columns from a place on add to the sum: a byte weighs its column's place from 1, and 16 more with each row.
#[tactic(auto, using(crate::proofs::CheckColumns::column_low), unfolding(crate::specs::design::Private::columns_sum))]
fn columns_sum(sums: &[u16; 16], by_row: &[u16; 16], at: usize) -> u32
    requires sums_value { all_at_most 4080 sums.now ≡ true }
    requires by_row_value { all_at_most 65280 by_row.now ≡ true }
    requires at_bound { at ≤ 256 }
    ensures { result ≡ columns_sum sums.now by_row.now at 16 }
{
    let mut sum: u32 = 0;
    for column in 0..16 {
        sum += 16 * by_row[column] as u32 + (at + column + 1) as u32 * sums[column] as u32;
    }
    sum
}

// The sum of 256 bytes from a place on, each times its place from 1. The last row comes first: a row before others moves them up by one, which adds
// their sums once more.
#[tactic(auto, using(crate::proofs::CheckColumns::columns), unfolding(basics::specs::Tables::all_at_most))]
fn half_sum(bytes: &[u8; BLOCK_BYTES], at: usize) -> u32
    requires at_bound { at ≤ 256 }
    ensures { check_sum bytes.now at + result ≡ check_sum bytes.now (at + 256) }
{
    let mut sums = [0; 16];
    let mut by_row = [0; 16];
    for rows in (0..16).rev() {
        let row = row_at(bytes, at + 16 * rows);
        let next_by_row = plus_row(&by_row, &sums);
        let next_sums = plus_row(&sums, &row);
        by_row = next_by_row;
        sums = next_sums;
    }
    columns_sum(&sums, &by_row, at)
}

// The sum of the first 510 bytes, each times its place from 1: the check's own two bytes are taken off again.
pub(crate) fn check_sum(bytes: &[u8; BLOCK_BYTES]) -> u32
    ensures { result ≡ check_sum bytes.now 510 }
{
    let last = 511 * bytes[510] as u32 + 512 * bytes[511] as u32;
    half_sum(bytes, 0) + half_sum(bytes, 256) - last
}
