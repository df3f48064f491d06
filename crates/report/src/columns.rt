// The columns of a group's line.
ghost use Rattle.std.specs.Prelude.{◌+◌, ◌≤◌, length};
ghost use Rattle.valuation.specs.StudyFactor.{study_factor};
ghost use Rattle.report.specs.Text.{sum_columns, factor_column};
ghost use Rattle.report.specs.design.Private.{Put};

use crate::puts::{put_byte, put_number, put_sum};
use study::sums::sum_at;
use valuation::study_factor::study_factor;

// Thirtieths, the five counts, both expected sums.
pub(crate) fn put_sums(sums: &[i64; 80], group: u8, at: usize, line: &mut [u8]) -> usize
    requires { at + 169 ≤ length line.old }
    ensures { Put 168 line.old at (sum_columns sums.now group 8) line.new result }
{
    let mut next = at;
    for column in 0..8 {
        next = put_sum(sum_at(sums, group, column), next, line);
    }
    next
}

// T of a group, and nothing where it is refused.
pub(crate) fn put_factor(sums: &[i64; 80], group: u8, at: usize, line: &mut [u8]) -> usize
    requires { at + 21 ≤ length line.old }
    ensures { Put 21 line.old at (factor_column (study_factor sums.now group)) line.new result }
{
    match study_factor(sums, group) {
        Ok(factor) => {
            let next = put_byte(32, at, line);
            put_number(factor.t, next, line)
        }
        Err(_) => at,
    }
}
