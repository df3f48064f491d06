// Reading: `rates.bin` into the rate table, and standard input into the file run, each from a source and both through one lent buffer of 2,048 bytes.
ghost use Rattle.std.specs.Prelude.{◌≡◌, true, false, ◌+◌, ◌*◌, ◌≤◌, ◌<◌, length, take, drop, Option, None};
ghost use Rattle.std.specs.Io.KnownBytes.{Consumes, IsAtEnd};
ghost use Rattle.std.proofs.lemmas.List.Edits.{sets};
ghost use Rattle.rates.specs.declared.Kind.TheVariants.{Prepared};
ghost use Rattle.rates.specs.design.Prepared.{prepared_of};
ghost use Rattle.study.specs.Sums.{none};
ghost use Rattle.claim_file.specs.Bytes.{four_at};
ghost use Rattle.claim_file.specs.Run.{fed};
ghost use Rattle.claim_file.specs.design.PreparedRuns.{adding_with};
ghost use Rattle.claim_file.specs.design.LentRuns.{with_sums};
ghost use Rattle.ltd_study.specs.Sources.{Stream, Hands, IsOver, Handed, left_of};
ghost use Rattle.ltd_study.specs.Input.{block_rates, read_answer, fed_count, rates_fit, RatesRead, InputRun, StudyRun};
ghost use Rattle.ltd_study.specs.design.Private.{Filling};

use claim_file::LentRun;
use claim_file::run::feed_lent;
use rates::Kind;
use rates::prepared::prepare;
use std::io::{self, Read};

// The buffer that all bytes go through.
pub(crate) type Buffer = [u8; 2048];

// The rates of 16 cells, and the mark behind them.
// Kept: how many are filled goes beside it, since fixed memory has no list that grows.
type Table = [u32; 15329];

// How many bytes came, whether the input is over behind them, and whether a read failed there. Kept: no enum, since a failed read is over too, and each of
// the three is asked alone.
#[derive(Clone, Copy)]
pub(crate) struct Filled {
    count: usize,
    over: bool,
    failed: bool,
}

// What a read comes to.
fn taken(got: io::Result<usize>) -> Filled
    ensures { result ≡ read_answer got }
{
    match got {
        Ok(count) => Filled {
            count,
            over: count == 0,
            failed: false,
        },
        Err(_) => Filled {
            count: 0,
            over: true,
            failed: true,
        },
    }
}

// Where bytes come from.
pub(crate) trait Source {
    // What reads will hand out from here on, and whether one fails behind it, where that is known.
    ghost left: { Self → Option Stream } = { λ _. None };

    // One read.
    fn read_some(&mut self, bytes: &mut [u8]) -> Filled
        ensures { Handed (left self.old) (left self.new) bytes.new result };
}

// A file and standard input: nothing is known of what the system hands out.
impl<R: Read> Source for R {
    fn read_some(&mut self, bytes: &mut [u8]) -> Filled
        ensures handed { Handed None None bytes.new result }
        ensures consumed { Consumes (R.remaining self.old) (R.remaining self.new) (take result.count bytes.new) }
        ensures end { result.over ≡ true → result.failed ≡ false → 0 < length bytes.new → IsAtEnd (R.remaining self.new) }
    {
        taken(self.read(bytes))
    }
}

// Reads until the buffer is full, the input ends or a read fails: a pipe hands out fewer bytes than asked.
fn fill<S: Source>(source: &mut S, buffer: &mut Buffer) -> Filled
    ensures filling { Filling 2048 result }
    ensures handed { Hands (S.left source.old) (take result.count buffer.new) (S.left source.new) }
    ensures over { result.over ≡ true → IsOver (S.left source.new) result.failed }
{
    // Kept: std's `read_exact` doesn't say how many bytes came before the end.
    let mut done = 0;
    while done < buffer.len() {
        let some = source.read_some(&mut buffer[done..]);
        if some.over {
            return Filled {
                count: done,
                ..some
            };
        }
        done += some.count;
    }
    Filled {
        count: done,
        over: false,
        failed: false,
    }
}

// The number of four bytes, low byte first.
// Kept: `four_at` of `claim_file` is private there; over `as_chunks::<4>()` the proof that a chunk's number is that of its four bytes didn't close.
fn rate_at(bytes: &[u8], at: usize) -> u32
    requires { at + 4 ≤ length bytes.now }
    ensures { result ≡ four_at bytes.now at }
{
    u32::from_le_bytes([bytes[at], bytes[at + 1], bytes[at + 2], bytes[at + 3]])
}

// Puts the first rates of some bytes into the table from a place on.
fn put_rates(bytes: &[u8], rates: usize, table: &mut [u32], from: usize)
    requires rates_in_bounds { 4 * rates ≤ length bytes.now }
    requires rates_in_bounds_2 { from + rates ≤ length table.old }
    ensures { table.new ≡ sets table.old from (block_rates bytes.now rates) }
{
    let end = from + rates;
    for (i, rate) in table[from..end].iter_mut().enumerate() {
        *rate = rate_at(bytes, 4 * i);
    }
}

// Whether what came is rates, behind some others: reading didn't fail, no part number is left over, and there are at most 16 cells.
fn are_rates(filled: Filled, rates: usize) -> bool
    requires rates_bound { rates ≤ 15328 }
    requires count_bound { filled.count ≤ 2048 }
    ensures { result ≡ rates_fit filled.failed (4 * rates + filled.count) }
{
    !filled.failed && filled.count % 4 == 0 && rates + filled.count / 4 <= 15328
}

// Reads `rates.bin` into the table, and answers how many rates it has.
fn read_rates<F: Source>(file: &mut F, table: &mut Table, buffer: &mut Buffer) -> usize
    ensures rates_read { RatesRead (F.left file.old) result table.new }
    ensures upper_bound { result ≤ 15328 }
{
    let mut rates = 0;
    // Kept: std has no iterator over what a source gives that fills a lent buffer, and the last part is put before the loop ends.
    loop {
        let filled = fill(file, buffer);
        if !are_rates(filled, rates) {
            return 0;
        }
        let more = filled.count / 4;
        put_rates(buffer, more, table, rates);
        rates += more;
        if filled.over {
            return rates;
        }
    }
}

// The same of a file that may be missing, which is closed behind it.
fn rates_of<F: Source + Drop>(file: Option<F>, table: &mut Table, buffer: &mut Buffer) -> usize
    ensures rates_read { RatesRead (left_of F.left file) result table.new }
    ensures upper_bound { result ≤ 15328 }
{
    match file {
        Some(mut file) => read_rates(&mut file, table, buffer),
        None => 0,
    }
}

// How many bytes of the buffer are fed. A failed read must not look like the end of the file: a part block follows the whole ones.
#[tactic(auto, unfolding(crate::specs::Input::fed_count))]
fn fed_count(came: Filled) -> usize
    requires { Filling 2048 came }
    ensures value { result ≡ fed_count came.failed came.count }
    ensures upper_bound { result ≤ 2048 }
{
    if came.failed {
        return came.count / 512 * 512 + 1;
    }
    came.count
}

// The run with the first bytes of the buffer fed, its sums lent.
fn feed_bytes(
    run: LentRun,
    table: &[u32],
    buffer: &Buffer,
    count: usize,
    sums: &mut [i64; 80],
) -> LentRun
    requires { count ≤ 2048 }
    ensures { with_sums result sums.new ≡ fed (with_sums run sums.old) (adding_with Prepared table.now) (take count buffer.now) }
{
    feed_lent(Kind::Prepared, table, &buffer[..count], run, sums)
}

// The file run of the input, fed four blocks at a time.
fn run_input<S: Source>(
    input: &mut S,
    table: &[u32],
    sums: &mut [i64; 80],
    buffer: &mut Buffer,
) -> LentRun
    requires { sums.old ≡ none }
    ensures { InputRun (S.left input.old) table.now (with_sums result sums.new) }
{
    let mut run = LentRun::start();
    // Ends at an input that doesn't: each turn raises the number of the block due, which 32 bits hold.
    loop {
        let filled = fill(input, buffer);
        run = feed_bytes(run, table, buffer, fed_count(filled), sums);
        if run.stop.is_some() || filled.over {
            return run.end();
        }
    }
}

// Prepares the first rates of the table where they stand, with the mark behind them.
fn prepare_rates(table: &mut Table, rates: usize)
    requires { rates < 15329 }
    ensures table_after { take (rates + 1) table.new ≡ prepared_of (take rates table.old) }
    ensures table_unchanged { drop (rates + 1) table.new ≡ drop (rates + 1) table.old }
{
    table[rates] = 0;
    let numbers = rates + 1;
    let _ = prepare(&mut table[0..numbers]);
}

// The file run of the input under the rates of a file, if it is there. The file is closed first: with standard input closed its descriptor
// has that number, and the rest of `rates.bin` is no claim file.
pub(crate) fn run_under<F: Source + Drop, S: Source>(
    file: Option<F>,
    input: &mut S,
    sums: &mut [i64; 80],
    buffer: &mut Buffer,
) -> LentRun
    requires { sums.old ≡ none }
    ensures { StudyRun (left_of F.left file) (S.left input.old) (with_sums result sums.new) }
{
    let mut table = [0; 15329];
    let rates = rates_of(file, &mut table, buffer);
    prepare_rates(&mut table, rates);
    run_input(input, &table[..rates + 1], sums, buffer)
}
