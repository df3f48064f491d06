// Runs the claim files of data/, whole and in pieces, and reads and writes blocks of them. A file's name is one letter:
// a the document's example, b empty, c 511 bytes, d block 0 twice, e a window that ends before it starts, f one from no date,
// g a claim refused in the middle of the third block after fifteen in the second, h a part block at the end, i blocks of 15, 0 and
// 1 claims, j a bad check, k a byte not zero in a claim, its 25, l one past the claims, m one before byte 16, n count 16, o a number right
// in its low byte only, p block 0 alone, q a month of -1 thirtieths, r block 0 with a count, s block 0 with a byte not zero past
// the window, t to w claims refused 2, 3, 5 and 7, x a claim in cell 256, y claims with benefits of 200, 0 and 201, the last refused 16,
// z a claim corrected in its block and one in the next block, each refused as it stood first, and a claim refused behind them.
ghost use Rattle.std.specs.Prelude.{◌≤◌, length, IfOk};

use basics::refusal::{number_in, number_refused};
use claim_file::corrections::run_corrected;
use claim_file::record::no_claim;
use claim_file::run::run_file;
use claim_file::{Block, FileRun, RunEnd, Stop, WindowDates, blocks};
use std::fs::File;
use std::io;
use std::io::Read;
use std::rt::Files;
use study::Study;
use study::sums::sum_at;
use test_support::lists::{counting, differences, filled};
use test_support::numbers::bits;
use test_support::print::{put, put_next, put_next_signed};

fn put_end(rt: &impl Print) -> io::Result<()> {
    put(rt, b"\n")
}

// A group's number, thirtieths, closing counts and expected recoveries and deaths.
fn put_group(rt: &impl Print, sums: &[i64; 80], number: u8) -> io::Result<()> {
    put_next(rt, number as u64)?;
    for column in 0..8 {
        put_next_signed(rt, bits(sum_at(sums, number, column)))?;
    }
    put_end(rt)
}

// The claims taken, the window and the groups.
fn put_study(rt: &impl Print, study: Study) -> io::Result<()> {
    let sums = study.sums;
    put_next(rt, study.taken as u64)?;
    put_next(rt, study.window.first.0 as u64)?;
    put_next(rt, study.window.last.0 as u64)?;
    put_end(rt)?;
    for number in 1..=5 {
        put_group(rt, &sums, number)?;
    }
    Ok(())
}

// The number refused, block and place, and the study.
fn put_outcome(rt: &impl Print, stop: Option<Stop>, study: Study) -> io::Result<()> {
    let end = RunEnd::from(stop);
    put_next(rt, end.number as u64)?;
    put_next(rt, end.block as u64)?;
    put_next(rt, end.place as u64)?;
    put_study(rt, study)
}

// The file of a letter.
fn open<R: Files>(rt: &R, letter: u8) -> io::Result<R::File> {
    let mut name = [0u8; 4];
    File::open(rt, char::from(letter).encode_utf8(&mut name))
}

// Reads until the bytes are full or the file ends, and answers how many it put at their start.
fn read_full(file: &mut impl Read, bytes: &mut [u8]) -> io::Result<usize>
    ensures { IfOk result (λ n. n ≤ length bytes.new) }
{
    let mut done = 0;
    // Kept: `read_exact` fails at a file that ends before the bytes are full.
    while done < bytes.len() {
        let more = file.read(&mut bytes[done..])?;
        if more == 0 {
            break;
        }
        done += more;
    }
    Ok(done)
}

// The start of the bytes is the file of a letter, and how many they are.
fn read_file(rt: &impl Files, letter: u8, bytes: &mut [u8]) -> io::Result<usize>
    ensures { IfOk result (λ n. n ≤ length bytes.new) }
{
    let mut file = open(rt, letter)?;
    read_full(&mut file, bytes)
}

// The run of a whole file.
fn put_file(rt: &(impl Files + Print), letter: u8, table: &[u32]) -> io::Result<()> {
    let mut bytes = [0u8; 2048];
    let n = read_file(rt, letter, &mut bytes)?;
    put(rt, &[letter])?;
    let run = run_file(table, &bytes[..n]);
    put_outcome(rt, run.stop, run.study)
}

// The same with corrections.
// Kept: `run_file` and `run_corrected` answer two structs: one function for both needs two closures that take them apart, and is no shorter.
fn put_corrected(rt: &(impl Files + Print), letter: u8, table: &[u32]) -> io::Result<()> {
    let mut bytes = [0u8; 2048];
    let n = read_file(rt, letter, &mut bytes)?;
    put(rt, &[letter])?;
    let run = run_corrected(table, &bytes[..n]);
    put_outcome(rt, run.stop, run.study)
}

fn put_files(rt: &(impl Files + Print), table: &[u32]) -> io::Result<()> {
    for letter in b'a'..b'z' {
        put_file(rt, letter, table)?;
    }
    Ok(())
}

// The run after the next 512 bytes of its file, or those that are left.
fn fed_piece(run: FileRun, file: &mut impl Read, table: &[u32]) -> io::Result<FileRun> {
    let mut piece = [0u8; 512];
    let n = read_full(file, &mut piece)?;
    Ok(run.feed(table, &piece[..n]))
}

// The run of a file fed in some pieces, of which the last may be empty.
fn put_pieces(rt: &(impl Files + Print), letter: u8, pieces: u8, table: &[u32]) -> io::Result<()> {
    put(rt, &[letter])?;
    let mut file = open(rt, letter)?;
    let mut run = FileRun::start();
    for _ in 0..pieces {
        run = fed_piece(run, &mut file, table)?;
    }
    let ended = run.end();
    put_outcome(rt, ended.stop, ended.study)
}

// Writing a block: the number refused, and how many bytes of a list of at most 513 times 255 changed.
fn put_write(rt: &impl Print, number: u32, block: Block, out: &mut [u8]) -> io::Result<()> {
    put_next(rt, number_refused(blocks::write(number, block, out)) as u64)?;
    put_next(rt, differences(out, &[255u8; 513]))
}

fn put_write_512(rt: &impl Print, number: u32, block: Block) -> io::Result<()> {
    let mut out = [255u8; 512];
    put_write(rt, number, block, &mut out)
}

// Writes refused: 16 claims, block 0, number 65,536, and a list of 511 and one of 513 bytes.
fn put_refused(rt: &impl Print, block: Block) -> io::Result<()> {
    let claims = block.claims;
    put_write_512(rt, 1, Block { count: 16, claims })?;
    put_write_512(rt, 0, block)?;
    put_write_512(rt, 65536, block)?;
    let mut short = [255u8; 511];
    put_write(rt, 1, block, &mut short)?;
    let mut long = [255u8; 513];
    put_write(rt, 1, block, &mut long)?;
    put_end(rt)
}

// The benefits of a block's first three claims.
fn put_benefits(rt: &impl Print, block: Block) -> io::Result<()> {
    let claims = block.claims;
    for claim in &claims[..3] {
        put_next(rt, claim.benefit as u64)?;
    }
    Ok(())
}

// A block's check at numbers 0 to 2, what reading finds, and the block written again against the first.
fn put_block(rt: &impl Print, bytes: &[u8], out: &mut [u8]) -> io::Result<()> {
    for due in 0..3 {
        put_next(rt, number_refused(blocks::check(bytes, due)) as u64)?;
    }
    let found = blocks::read(bytes, 1);
    put_next(rt, number_in(found.err()) as u64)?;
    let block = found.unwrap_or(Block {
        count: 0,
        claims: [no_claim(); 15],
    });
    put_next(rt, block.count as u64)?;
    put_benefits(rt, block)?;
    put_next(rt, number_refused(blocks::write(1, block, out)) as u64)?;
    put_next(rt, differences(bytes, out))?;
    put_end(rt)?;
    put_refused(rt, block)
}

// A window written, against the bytes that it was read from.
fn put_window(
    rt: &impl Print,
    window: WindowDates,
    bytes: &[u8],
    out: &mut [u8],
) -> io::Result<()> {
    let first = window.first;
    let last = window.last;
    put_next(rt, first.year as u64)?;
    put_next(rt, last.year as u64)?;
    put_next(
        rt,
        number_refused(blocks::write_window(first, last, out)) as u64,
    )?;
    put_next(rt, differences(bytes, out))?;
    let mut short = [255u8; 511];
    put_next(
        rt,
        number_refused(blocks::write_window(first, last, &mut short)) as u64,
    )?;
    put_end(rt)
}

// Block 0's check and its window.
fn put_head(rt: &impl Print, bytes: &[u8], out: &mut [u8]) -> io::Result<()> {
    put_next(rt, number_refused(blocks::check(bytes, 0)) as u64)?;
    match blocks::read_window(bytes) {
        Ok(window) => put_window(rt, window, bytes, out),
        Err(refusal) => put_next(rt, u8::from(refusal) as u64),
    }
}

// The next 512 bytes of a file.
fn next_bytes(file: &mut impl Read) -> io::Result<[u8; 512]> {
    let mut bytes = [0u8; 512];
    read_full(file, &mut bytes)?;
    Ok(bytes)
}

// The first two blocks of a file as block 0 and block 1, read and written.
fn put_blocks(rt: &(impl Files + Print), letter: u8) -> io::Result<()> {
    put(rt, &[letter])?;
    let mut file = open(rt, letter)?;
    let head = next_bytes(&mut file)?;
    put_head(rt, &head, &mut [255; 512])?;
    let block = next_bytes(&mut file)?;
    put_block(rt, &block, &mut [255; 512])
}

// Cell 0 has recovery rates 10,000 and death rates 5,000; only that cell is lent.
fn flat() -> [u32; 1916] {
    filled([10000; 1916], 479, 958, 5000, 0, 1000000)
}

// Tables of a wrong length, and with rates together over 1,000,000.
fn put_refused_tables(rt: &(impl Files + Print)) -> io::Result<()> {
    let short = [1u32; 957];
    put_file(rt, b'a', &short)?;
    let high = [500001u32; 958];
    put_file(rt, b'a', &high)
}

// 257 cells: only the last has rates that aren't 0, at duration 4, in which its claim has 30 thirtieths.
fn put_wide(rt: &(impl Files + Print), table: &mut [u32; 246206]) -> io::Result<()> {
    table[245250] = 7;
    table[245729] = 11;
    put_file(rt, b'x', table)?;
    put_file(rt, b'a', table)
}

fn put_all_pieces(rt: &(impl Files + Print), table: &[u32]) -> io::Result<()> {
    put_pieces(rt, b'a', 2, table)?;
    for letter in [b'a', b'b', b'g', b'h', b'i'] {
        put_pieces(rt, letter, 4, table)?;
    }
    Ok(())
}

// Runs with corrections, and the same file without.
fn put_corrections(rt: &(impl Files + Print), table: &[u32]) -> io::Result<()> {
    put_file(rt, b'z', table)?;
    for letter in [b'z', b'a', b'b', b'e', b'h'] {
        put_corrected(rt, letter, table)?;
    }
    Ok(())
}

pub(crate) fn files(rt: &(impl Files + Print)) -> io::Result<()> {
    let one = flat();
    put_files(rt, &one[0..958])?;
    let two = counting();
    put_files(rt, &two)?;
    put_refused_tables(rt)?;
    put_all_pieces(rt, &two)?;
    for letter in [b'a', b'g', b'k', b'x', b'y'] {
        put_blocks(rt, letter)?;
    }
    put_wide(rt, &mut [0u32; 246206])?;
    put_corrections(rt, &one[0..958])
}
