// A study's 83 numbers in 64 bits each, a negative one as 2^64 more: its window's days, the claims taken, and eight for each group of either set.
use std::io;
use study::Study;
use test_support::lists::same;
use test_support::numbers::bits;
use test_support::print::{put, put_groups, put_next_signed, put_yes};

// The list with a study's numbers added, place by place.
pub(crate) fn with_numbers(list: [u64; 83], study: Study) -> [u64; 83] {
    let mut own = [0i64; 83];
    study_list::put_study(study, 0, &mut own);
    let mut after = list;
    for (place, number) in after.iter_mut().zip(&own) {
        *place = place.wrapping_add(bits(*number));
    }
    after
}

pub(crate) fn numbers(study: Study) -> [u64; 83] {
    with_numbers([0; 83], study)
}

// Whether two studies have the same sums and counts, whatever their windows.
pub(crate) fn same_sums(a: &[u64; 83], b: &[u64; 83]) -> bool {
    same(&a[3..], &b[3..])
}

// Whether two lists are the same.
pub(crate) fn put_same(rt: &impl Print, a: &[u64; 83], b: &[u64; 83]) -> io::Result<()> {
    put_yes(rt, same(a, b))
}

// The claims taken, and a line for each group of either set.
pub(crate) fn put_study(rt: &impl Print, list: &[u64; 83]) -> io::Result<()> {
    put(rt, b"taken")?;
    put_next_signed(rt, list[2])?;
    put(rt, b"\n")?;
    put_groups(rt, b"", &list[3..43])?;
    put_groups(rt, b"weighted ", &list[43..])
}
