// The sums of one set of a study as a list of 64-bit numbers, a negative one as 2^64 more: eight for each group, the groups in order.
ghost use Rattle.std.specs.Prelude.{◌≤◌};

use basics::refusal::number_in;
use std::io;
use study::{Answer, Study};
use test_support::numbers::bits;
use test_support::print::{put, put_next};

// The list with the sums of a study from a place on added, place by place.
fn with_set(list: [u64; 40], study: Study, from: usize) -> [u64; 40]
    requires { from ≤ 40 }
{
    let sums = study.sums;
    let mut after = list;
    for (figure, sum) in after.iter_mut().zip(&sums[from..]) {
        *figure = figure.wrapping_add(bits(*sum));
    }
    after
}

pub(crate) fn with_study(list: [u64; 40], study: Study) -> [u64; 40] {
    with_set(list, study, 0)
}

pub(crate) fn with_weighted(list: [u64; 40], study: Study) -> [u64; 40] {
    with_set(list, study, 40)
}

pub(crate) fn figures(study: Study) -> [u64; 40] {
    with_study([0; 40], study)
}

pub(crate) fn weighted_figures(study: Study) -> [u64; 40] {
    with_weighted([0; 40], study)
}

// A line for each group: its number and its figures in order.
pub(crate) fn put_groups(rt: &impl Print, figures: &[u64; 40]) -> io::Result<()> {
    test_support::print::put_groups(rt, b"", figures)
}

// What an addition or a withdrawal answers: the number refused, whether the study came back as it was, and its sums by count unless it was refused.
pub(crate) fn put_answer(rt: &impl Print, before: Study, answer: Answer) -> io::Result<()> {
    let after = answer.study;
    put(rt, b" refused")?;
    put_next(rt, number_in(answer.refused) as u64)?;
    let same = before == after;
    put(
        rt,
        if same {
            b" unchanged taken"
        } else {
            b" changed taken"
        },
    )?;
    put_next(rt, after.taken as u64)?;
    put(rt, b"\n")?;
    if answer.refused.is_none() {
        put_groups(rt, &figures(after))?;
    }
    Ok(())
}
