// Bytes, numbers and sums put at a place of a lent list; each answers the place behind what it put.
// Kept: place and list apart: `Put` ties the place given to the one answered, and would say the same of both fields of a struct, no shorter.
ghost use Rattle.std.specs.Prelude.{◌≡◌, [], ◌∷◌, ◌+◌, ◌≤◌, ◌<◌, length};
ghost use Rattle.report.specs.Text.{number_text, count_column, sum_column};
ghost use Rattle.report.specs.design.Private.{Put};

use crate::digits::decimal;

pub(crate) fn put_byte(byte: u8, at: usize, line: &mut [u8]) -> usize
    requires { at < length line.old }
    ensures { Put 1 line.old at (byte ∷ []) line.new result }
{
    line[at] = byte;
    at + 1
}

pub(crate) fn put_text(text: &[u8], at: usize, line: &mut [u8]) -> usize
    requires { at + length text.now ≤ length line.old }
    ensures { Put (length text.now) line.old at text.now line.new result }
{
    let end = at + text.len();
    line[at..end].copy_from_slice(text);
    end
}

pub(crate) fn put_number(number: u64, at: usize, line: &mut [u8]) -> usize
    requires { at + 20 ≤ length line.old }
    ensures { Put 20 line.old at (number_text number) line.new result }
{
    let mut text = [0u8; 20];
    let digits = decimal(number, &mut text);
    put_text(&text[..digits], at, line)
}

// A number of 32 bits.
pub(crate) fn put_short(number: u32, at: usize, line: &mut [u8]) -> usize
    requires { at + 20 ≤ length line.old }
    ensures { Put 10 line.old at (number_text number) line.new result }
{
    put_number(u64::from(number), at, line)
}

// A space and a count.
pub(crate) fn put_count(count: u32, at: usize, line: &mut [u8]) -> usize
    requires { at + 21 ≤ length line.old }
    ensures { Put 11 line.old at (count_column count) line.new result }
{
    let at = put_byte(32, at, line);
    put_short(count, at, line)
}

// A space and a sum, which may be negative.
pub(crate) fn put_sum(sum: i64, at: usize, line: &mut [u8]) -> usize
    requires { at + 22 ≤ length line.old }
    ensures { Put 21 line.old at (sum_column sum) line.new result }
{
    let size = sum.unsigned_abs();
    if sum < 0 {
        let at = put_text(b" -", at, line);
        return put_number(size, at, line);
    }
    let at = put_byte(32, at, line);
    put_number(size, at, line)
}
