// The rows of a file of 30 claims of a load, in lists of 1, 3 and 12 rows: with rates, with the table prepared of them, with a table of the other kind, with a
// claim in the second block that is refused, and with a block that is not sound. And lists of other lengths. Rows of zeros are not printed.
use by_duration::run::durations;
use claim_file::record::no_claim;
use claim_file::{Block, blocks};
use claim_months::Claim;
use load::load_claim;
use rates::Kind;
use rates::prepared::prepare;
use std::io;
use test_support::dates::date;
use test_support::lists::counting;
use test_support::numbers::bits;
use test_support::print::{put, put_named, put_next, put_next_signed};

// A block of 15 claims of a load, the fifth with its status changed.
fn block_of(seed: u32, change: u8) -> Block {
    let mut claims = [no_claim(); 15];
    let mut x = seed;
    for k in 0..15 {
        if let Ok(step) = load_claim(x, 15, k as u32 + 1) {
            claims[k] = step.claim;
            x = step.x;
        }
    }
    let fifth = claims[4];
    claims[4] = Claim {
        status: fifth.status.wrapping_add(change),
        ..fifth
    };
    Block { count: 15, claims }
}

// A block's bytes.
fn bytes_of(number: u32, block: Block) -> [u8; 512] {
    let mut bytes = [0u8; 512];
    let written = blocks::write(number, block, &mut bytes);
    if written.is_err() {
        return [0u8; 512];
    }
    bytes
}

// Block 0.
fn window_bytes() -> [u8; 512] {
    let mut bytes = [0u8; 512];
    let written = blocks::write_window(date(19930315), date(20001231), &mut bytes);
    if written.is_err() {
        return [0u8; 512];
    }
    bytes
}

// A file of two blocks of claims: a claim's status in the second changed, and a byte of the first.
fn file_of(status: u8, change: u8) -> [u8; 1536] {
    let window = window_bytes();
    let first = bytes_of(1, block_of(1, 0));
    let second = bytes_of(2, block_of(7, status));
    let mut file = [0u8; 1536];
    for i in 0..512 {
        file[i] = window[i];
        file[512 + i] = first[i];
        file[1024 + i] = second[i];
    }
    file[600] = file[600].wrapping_add(change);
    file
}

// A row: its number and eight numbers.
fn put_row(rt: &impl Print, row: usize, numbers: &[i64]) -> io::Result<()> {
    put_named(rt, b"  ", row as u64)?;
    for number in numbers {
        put_next_signed(rt, bits(*number))?;
    }
    put(rt, b"\n")
}

// The rows that are not zeros, row 0 the head, and what was answered.
fn put_rows(
    rt: &impl Print,
    kind: Kind,
    table: &[u32],
    file: &[u8],
    out: &mut [i64],
) -> io::Result<()> {
    let answer = durations(kind, table, file, out);
    put_named(rt, b"length ", out.len() as u64)?;
    put_next(rt, answer as u64)?;
    put(rt, b"\n")?;
    if let Some(head) = out.get(..4) {
        put_row(rt, 0, head)?;
    }
    for row in 0..12 {
        if let Some(numbers) = out.get(8 * row + 4..8 * row + 12) {
            if numbers.iter().any(|x| *x != 0) {
                put_row(rt, row + 1, numbers)?;
            }
        }
    }
    Ok(())
}

// The same in lists of 1, 3 and 12 rows.
fn put_each(rt: &impl Print, kind: Kind, table: &[u32], file: &[u8]) -> io::Result<()> {
    put_rows(rt, kind, table, file, &mut [7; 12])?;
    put_rows(rt, kind, table, file, &mut [7; 28])?;
    put_rows(rt, kind, table, file, &mut [7; 100])
}

// Lists of no row, of a part of one, and of none of the head.
fn put_others(rt: &impl Print, table: &[u32], file: &[u8]) -> io::Result<()> {
    put_rows(rt, Kind::Plain, table, file, &mut [7; 0])?;
    put_rows(rt, Kind::Plain, table, file, &mut [7; 4])?;
    put_rows(rt, Kind::Plain, table, file, &mut [7; 11])?;
    put_rows(rt, Kind::Plain, table, file, &mut [7; 13])
}

// A table of two cells prepared.
fn prepared() -> [u32; 1917] {
    let rates = counting();
    let mut table = [0u32; 1917];
    for i in 0..1916 {
        table[i] = rates[i];
    }
    if prepare(&mut table).is_err() {
        return [0u32; 1917];
    }
    table
}

pub(crate) fn rows(rt: &impl Print) -> io::Result<()> {
    let rates = counting();
    let table = prepared();
    let file = file_of(0, 0);
    put_each(rt, Kind::Plain, &rates, &file)?;
    put_each(rt, Kind::Prepared, &table, &file)?;
    put_each(rt, Kind::Prepared, &rates, &file)?;
    put_others(rt, &rates, &file)?;
    put_each(rt, Kind::Plain, &rates, &file_of(7, 0))?;
    put_each(rt, Kind::Prepared, &table, &file_of(0, 1))
}
