// What the program prints, line by line, as bytes in a small lent list: the table's head, the line of a group, where a file was
// refused, and which of them a run has.
// Kept: of a list that is too short 0 is the length put, and no `None`, since `run_text` adds the lengths up.
// Kept: each public function has a guard of its own, with the length that it needs: one for all takes a closure that puts, no shorter than the guard.
#![tactic(auto)]

ghost use Rattle.std.specs.Prelude.{◌≡◌, ◌≤◌, length};
ghost use Rattle.report.specs.Counts.{IsPrefixLen};
ghost use Rattle.claim_file.specs.design.LentRuns.{with_sums};
ghost use Rattle.report.specs.Text.{table_head, group_line, refusal_line, run_text, run_line, line_answer, line_after};
ghost use Rattle.report.specs.design.Private.{Put};

mod columns;
mod digits;
mod puts;

use claim_file::LentRun;
use columns::{put_factor, put_sums};
use puts::{put_byte, put_count, put_short, put_text};

// Puts the table's head into a list of at least 200 bytes, and answers its length.
pub fn head_line(line: &mut [u8]) -> usize
    ensures value { result ≡ line_answer 200 line.old table_head }
    ensures line_after { line.new ≡ line_after 200 line.old table_head }
    ensures prefix_len { IsPrefixLen result line.new }
{
    if line.len() < 200 {
        return 0;
    }
    put_text(
        b"group exposure rec dea set max lim exprec expdea T\n",
        0,
        line,
    )
}

fn put_group(sums: &[i64; 80], group: u8, line: &mut [u8]) -> usize
    requires { 200 ≤ length line.old }
    ensures { Put 200 line.old 0 (group_line sums.now group) line.new result }
{
    let at = put_short(u32::from(group), 0, line);
    let at = put_sums(sums, group, at, line);
    let at = put_factor(sums, group, at, line);
    put_byte(10, at, line)
}

// Puts the line of a group into a list of at least 200 bytes, and answers its length.
pub fn group_line(sums: &[i64; 80], group: u8, line: &mut [u8]) -> usize
    ensures value { result ≡ line_answer 200 line.old (group_line sums.now group) }
    ensures line_after { line.new ≡ line_after 200 line.old (group_line sums.now group) }
    ensures prefix_len { IsPrefixLen result line.new }
{
    if line.len() < 200 {
        return 0;
    }
    put_group(sums, group, line)
}

fn put_refusal(number: u8, block: u32, place: u8, line: &mut [u8]) -> usize
    requires { 64 ≤ length line.old }
    ensures { Put 53 line.old 0 (refusal_line number block place) line.new result }
{
    let at = put_text(b"refused", 0, line);
    let at = put_count(u32::from(number), at, line);
    let at = put_text(b" block", at, line);
    let at = put_count(block, at, line);
    let at = put_text(b" claim", at, line);
    let at = put_count(u32::from(place), at, line);
    put_byte(10, at, line)
}

// Puts the line of a refusal into a list of at least 64 bytes, and answers its length.
pub fn refusal_line(number: u8, block: u32, place: u8, line: &mut [u8]) -> usize
    ensures value { result ≡ line_answer 64 line.old (refusal_line number block place) }
    ensures line_after { line.new ≡ line_after 64 line.old (refusal_line number block place) }
    ensures prefix_len { IsPrefixLen result line.new }
{
    if line.len() < 64 {
        return 0;
    }
    put_refusal(number, block, place, line)
}

// Puts a line of what a run prints, 0 to 5, into a list of at least 200 bytes, and answers its length. The run's sums are lent.
pub fn run_line(run: LentRun, sums: &[i64; 80], number: u8, line: &mut [u8]) -> usize
    ensures value { result ≡ line_answer 200 line.old (run_line (with_sums run sums.now) number) }
    ensures line_after { line.new ≡ line_after 200 line.old (run_line (with_sums run sums.now) number) }
    ensures prefix_len { IsPrefixLen result line.new }
{
    if line.len() < 200 {
        return 0;
    }
    if let Some(stop) = run.stop {
        if number != 0 {
            return 0;
        }
        return refusal_line(u8::from(stop.refusal), stop.block, stop.place, line);
    }
    if number == 0 {
        return head_line(line);
    }
    if number > 5 {
        return 0;
    }
    group_line(sums, number, line)
}

// Puts all that a run prints into a list of at least 1,200 bytes, and answers its length.
pub fn run_text(run: LentRun, sums: &[i64; 80], text: &mut [u8]) -> usize
    ensures value { result ≡ line_answer 1200 text.old (run_text (with_sums run sums.now)) }
    ensures text_after { text.new ≡ line_after 1200 text.old (run_text (with_sums run sums.now)) }
    ensures prefix_len { IsPrefixLen result text.new }
{
    if text.len() < 1200 {
        return 0;
    }
    let mut at = 0;
    for number in 0..6 {
        let end = at + 200;
        at += run_line(run, sums, number, &mut text[at..end]);
    }
    at
}
