// Studies of windows, fresh ones and made ones, and the table that they are added to with.
use basics::refusal::number_in;
use calendar::Day;
use claim_months::Window;
use std::io;
use study::{Answer, Study};
use test_support::dates::date;
use test_support::lists::filled;
use test_support::print::put_named;

// Two cells. The rates of cell 0 differ at every duration; those of cell 1 are together 1,000,000, and at duration 300 one more.
pub(crate) fn rate_table() -> [u32; 1916] {
    // 60 less at each duration: a step of 1,000,000 − 60.
    let recoveries = filled([500000; 1916], 0, 479, 30000, 999940, 1000000);
    let mut table = filled(recoveries, 479, 958, 2000, 17, 1000000);
    table[1735] = 500001;
    table
}

pub(crate) fn opened(first: u32, last: u32) -> Study {
    Study::open(date(first), date(last)).study
}

// A study that no opening made, of two day numbers.
pub(crate) fn study_of(first: u32, last: u32, taken: u32, sums: [i64; 80]) -> Study {
    Study {
        window: Window {
            first: Day(first),
            last: Day(last),
        },
        taken,
        sums,
    }
}

// The study after the claim at a place is added or withdrawn, which is printed with the number refused.
pub(crate) fn after(rt: &impl Print, sign: &[u8], place: u32, answer: Answer) -> io::Result<Study> {
    put_named(rt, sign, place as u64)?;
    put_named(rt, b":", number_in(answer.refused) as u64)?;
    Ok(answer.study)
}
