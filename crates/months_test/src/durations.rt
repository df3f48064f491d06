// Claims listed in a window and in its three parts, side by side by duration.
use crate::listings::{BEFORE, closed, days_before, head, open, put_date};
use calendar::Date;
use claim_months::Claim;
use std::io;
use test_support::dates::date;
use test_support::numbers::bits_of_short;
use test_support::print::{put, put_number, put_signed};

// The records of a window, and how many they are.
#[derive(Clone, Copy)]
struct MonthList {
    months: u32,
    list: [i32; 60],
}

// What a listing has at a duration: thirtieths, as bits, and the category, both 0 if it has no such record.
#[derive(Clone, Copy)]
struct Share {
    thirtieths: u64,
    category: u64,
}

// Settlements in a claim month of 28 days, cut the day before: document 01's, one of four months, and one past duration 480; a recovery
// there; an open claim.
pub(crate) fn durations(rt: &impl Print) -> io::Result<()> {
    nine_years(rt, closed(20110210, 20110216, 3))?;
    nine_years(rt, closed(20101110, 20110216, 3))?;
    nine_years(rt, closed(20101110, 20110216, 1))?;
    in_three(
        rt,
        20001201,
        20010116,
        20010216,
        20011231,
        closed(19600310, 20010216, 3),
    )?;
    in_three(
        rt,
        20101001,
        20110101,
        20110216,
        20110331,
        open(20101110, 90),
    )
}

fn nine_years(rt: &impl Print, claim: Claim) -> io::Result<()> {
    in_three(rt, 20090101, 20110101, 20110216, 20171231, claim)
}

// Shows a claim in a window, and in its parts, of which the second and the third start on the two days between.
fn in_three(
    rt: &impl Print,
    first: u32,
    second: u32,
    third: u32,
    last: u32,
    claim: Claim,
) -> io::Result<()> {
    let end = days_before(second, 1);
    let next_end = days_before(third, 1);
    head(rt, date(first), date(last), claim)?;
    put(rt, b"parts to ")?;
    put_date(rt, end)?;
    put(rt, b", ")?;
    put_date(rt, next_end)?;
    put(rt, b", ")?;
    put_date(rt, date(last))?;
    put(rt, b"\n")?;
    let whole = records(date(first), date(last), claim);
    let one = records(date(first), end, claim);
    let two = records(date(second), next_end, claim);
    let three = records(date(third), date(last), claim);
    side_by_side(rt, whole, one, two, three)
}

fn records(first: Date, last: Date, claim: Claim) -> MonthList {
    let mut list = [BEFORE; 60];
    let months = claim_months::listing::list_months(first, last, claim, &mut list).unwrap_or(0);
    MonthList { months, list }
}

// The durations of the undivided window's records, and the one before and the one after them, one to a line.
fn side_by_side(
    rt: &impl Print,
    whole: MonthList,
    one: MonthList,
    two: MonthList,
    three: MonthList,
) -> io::Result<()> {
    let before = bits_of_short(whole.list[0]).wrapping_sub(1);
    for duration in before..before.wrapping_add(u64::from(whole.months)).wrapping_add(2) {
        put_line(
            rt,
            duration,
            share_at(whole, duration),
            share_at(one, duration),
            share_at(two, duration),
            share_at(three, duration),
        )?;
    }
    Ok(())
}

fn put_line(
    rt: &impl Print,
    duration: u64,
    whole: Share,
    one: Share,
    two: Share,
    three: Share,
) -> io::Result<()> {
    put(rt, b"  ")?;
    put_number(rt, duration)?;
    put(rt, b": ")?;
    put_share(rt, whole)?;
    put(rt, b"; parts ")?;
    put_share(rt, one)?;
    put(rt, b", ")?;
    put_share(rt, two)?;
    put(rt, b", ")?;
    put_share(rt, three)?;
    put(rt, b"; together ")?;
    put_signed(
        rt,
        one.thirtieths
            .wrapping_add(two.thirtieths)
            .wrapping_add(three.thirtieths),
    )?;
    put(rt, b"\n")
}

fn put_share(rt: &impl Print, share: Share) -> io::Result<()> {
    put_signed(rt, share.thirtieths)?;
    if share.category != 0 {
        put(rt, b" category ")?;
        put_number(rt, share.category)?;
    }
    Ok(())
}

fn share_at(records: MonthList, duration: u64) -> Share {
    let mut share = Share {
        thirtieths: 0,
        category: 0,
    };
    let list = records.list;
    let (rows, _) = list.as_chunks::<6>();
    for row in rows.iter().take(records.months as usize) {
        if bits_of_short(row[0]) == duration {
            share.thirtieths = share.thirtieths.wrapping_add(bits_of_short(row[3]));
            share.category = share.category.wrapping_add(bits_of_short(row[5]));
        }
    }
    share
}
