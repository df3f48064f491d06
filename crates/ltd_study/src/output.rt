// What is printed: what `report` makes of the run.
ghost use Rattle.std.specs.Prelude.{take, OnOk};
ghost use Rattle.report.specs.Counts.{IsPrefixLen};
ghost use Rattle.ltd_study.specs.Sources.{left_of};
ghost use Rattle.ltd_study.specs.Input.{StudyText, StudyPrinted};

use crate::input::{Buffer, Source, run_under};
use std::io::{self, Write};

// Puts what the program prints of the input into the buffer, under the rates of a file, if it is there, and answers its length.
fn study_text<F: Source + Drop, S: Source>(
    rates: Option<F>,
    input: &mut S,
    buffer: &mut Buffer,
) -> usize
    ensures study_text { StudyText (left_of F.left rates) (S.left input.old) (take result buffer.new) }
    ensures prefix_len { IsPrefixLen result buffer.new }
{
    let mut sums = [0i64; 80];
    let run = run_under(rates, input, &mut sums, buffer);
    report::run_text(run, &sums, buffer)
}

// Prints the study of the input under the rates of a file, if it is there. Out of line, as what it has on the stack leaves no room for the file's path.
#[inline(never)]
pub(crate) fn print_study<F: Source + Drop, S: Source, W: Write>(
    rates: Option<F>,
    input: &mut S,
    output: &mut W,
) -> io::Result<()>
    ensures { OnOk result (StudyPrinted (left_of F.left rates) (S.left input.old) (W.contents output.old) (W.contents output.new)) }
{
    let mut buffer = [0u8; 2048];
    let count = study_text(rates, input, &mut buffer);
    output.write_all(&buffer[..count])
}
