// Asks the small company rule about lists of claims at the edges of its days, counts, limits and checks. Each line has the number refused, whether
// the carrier is exempt, both counts, the group told and five T.
use basics::refusal::{Refusal, number_in};
use claim_file::record::write_record;
use claim_months::Claim;
use small_company::{Company, small_company};
use std::io;
use test_support::dates::date;
use test_support::print::{put, put_next, put_number};

pub(crate) fn companies(rt: &impl Print) -> io::Result<()> {
    days(rt)?;
    leap_days(rt)?;
    first_years(rt)?;
    closed_claims(rt)?;
    many_claims(rt)?;
    bad_dates(rt)?;
    bad_lists(rt)?;
    bad_claims(rt)
}

// A refused list has zeros after its number.
fn put_answer(rt: &impl Print, answer: Result<Company, Refusal>) -> io::Result<()> {
    put_number(rt, number_in(answer.err()) as u64)?;
    let company = answer.unwrap_or(Company {
        exempt: false,
        recent: 0,
        earlier: 0,
        group: 0,
        t: [0; 5],
    });
    put_next(rt, u64::from(company.exempt))?;
    put_next(rt, company.recent)?;
    put_next(rt, company.earlier)?;
    put_next(rt, company.group as u64)?;
    for t in company.t {
        put_next(rt, t)?;
    }
    put(rt, b"\n")
}

// An open claim. Its BCD is the calendar's last day, so that only the disability date counts.
fn open_claim(disabled: u32) -> Claim {
    Claim {
        number: 7,
        disability: date(disabled),
        bcd: date(20991231),
        termination: date(0),
        maximum: date(0),
        status: 0,
        code: 0,
        cell: 1023,
        benefit: 200,
    }
}

// A closed one.
fn closed_claim(disabled: u32, code: u8) -> Claim {
    Claim {
        termination: date(20991231),
        status: 1,
        code,
        ..open_claim(disabled)
    }
}

// A list of three claims.
fn three(first: Claim, second: Claim, third: Claim) -> [u8; 96] {
    let mut bytes = [0u8; 96];
    write_record(first, 0, &mut bytes);
    write_record(second, 32, &mut bytes);
    write_record(third, 64, &mut bytes);
    bytes
}

// The answer for a list. In groups 1 to 5 T is moved by nothing, a tenth of the old down, one more, a tenth up, and one more.
fn ask(rt: &impl Print, valued: u32, claims: &[u8]) -> io::Result<()> {
    let new_t = [1000000, 900000, 899999, 1100000, 1100001];
    let old_t = [1000000; 5];
    put_answer(rt, small_company(date(valued), claims, new_t, old_t))
}

// The answer for a list of one claim.
fn ask_one(rt: &impl Print, valued: u32, claim: Claim) -> io::Result<()> {
    let mut bytes = [0u8; 32];
    write_record(claim, 0, &mut bytes);
    ask(rt, valued, &bytes)
}

fn ask_open(rt: &impl Print, valued: u32, disabled: u32) -> io::Result<()> {
    ask_one(rt, valued, open_claim(disabled))
}

// The day two years before is within, the day before it is not; nor is the day after the valuation date.
fn days(rt: &impl Print) -> io::Result<()> {
    ask(rt, 20200630, b"")?;
    for (valued, disabled) in [
        (20200630, 20180629),
        (20200630, 20180630),
        (20200630, 20180701),
        (20200630, 20200630),
        (20200630, 20200701),
        (20991231, 20971230),
        (20991231, 20971231),
        (20200101, 20171231),
        (20200101, 20180101),
    ] {
        ask_open(rt, valued, disabled)?;
    }
    Ok(())
}

// Two years before 29 February is 28 February, and no other day is moved.
fn leap_days(rt: &impl Print) -> io::Result<()> {
    for (valued, disabled) in [
        (20200229, 20180227),
        (20200229, 20180228),
        (20200229, 20180301),
        (20200228, 20180227),
        (20200228, 20180228),
        (20220228, 20200227),
        (20220228, 20200228),
        (20220301, 20200229),
        (20220301, 20200301),
        (20200329, 20180328),
        (20200329, 20180329),
        (19520229, 19500227),
        (19520229, 19500228),
    ] {
        ask_open(rt, valued, disabled)?;
    }
    Ok(())
}

// Every day is within where the one two years before lies before 1950.
fn first_years(rt: &impl Print) -> io::Result<()> {
    for (valued, disabled) in [
        (19500101, 19500101),
        (19500101, 19500102),
        (19511231, 19500101),
        (19520101, 19500101),
        (19520102, 19500101),
        (19520102, 19500102),
    ] {
        ask_open(rt, valued, disabled)?;
    }
    Ok(())
}

// Closed claims don't count, whatever closed them.
fn closed_claims(rt: &impl Print) -> io::Result<()> {
    ask_one(rt, 20200630, closed_claim(20190630, 1))?;
    ask_one(rt, 20200630, closed_claim(20100630, 6))?;
    let some = three(
        closed_claim(20190630, 2),
        open_claim(20190630),
        open_claim(20100630),
    );
    ask(rt, 20200630, &some)
}

// A claim within two years of 30 June 2020 for a place below 50, an earlier one for another.
fn claim_for(place: usize) -> Claim {
    if place < 50 {
        return open_claim(20190630);
    }
    open_claim(20100630)
}

// Stores 50 claims within two years of 30 June 2020, then 200 earlier ones.
fn fill(bytes: &mut [u8]) {
    for place in 0..250 {
        write_record(claim_for(place), 32 * place, bytes);
    }
}

fn many_claims(rt: &impl Print) -> io::Result<()> {
    let mut bytes = [0u8; 8000];
    fill(&mut bytes);
    limits(rt, bytes)?;
    other_lists(rt, bytes)?;
    first_groups(rt, &bytes[0..1600])?;
    differences(rt, &bytes[0..1600])?;
    large_numbers(rt, &bytes[0..1600])
}

// 49 or 50 recent claims, 199 or 200 earlier ones, all of them open.
fn limits(rt: &impl Print, bytes: [u8; 8000]) -> io::Result<()> {
    ask(rt, 20200630, &bytes[32..7968])?;
    ask(rt, 20200630, &bytes[32..8000])?;
    ask(rt, 20200630, &bytes[0..7968])?;
    ask(rt, 20200630, &bytes[0..8000])
}

// Recent claims alone and earlier ones alone; all of them at a date by which all are earlier, and before all of them.
fn other_lists(rt: &impl Print, bytes: [u8; 8000]) -> io::Result<()> {
    ask(rt, 20200630, &bytes[0..1600])?;
    ask(rt, 20200630, &bytes[1600..8000])?;
    ask(rt, 20211231, &bytes[0..8000])?;
    ask(rt, 20091231, &bytes[0..8000])
}

// The answer for some T.
fn ask_t(rt: &impl Print, claims: &[u8], new_t: [u64; 5], old_t: [u64; 5]) -> io::Result<()> {
    put_answer(rt, small_company(date(20200630), claims, new_t, old_t))
}

// The answer for one T, in group 5.
fn ask_last(rt: &impl Print, claims: &[u8], new: u64, old: u64) -> io::Result<()> {
    ask_t(rt, claims, [5, 6, 7, 8, new], [5, 6, 7, 8, old])
}

// The first group that moved far is told, and 0 for none. From here on the carrier has 50 recent claims, and is not exempt.
fn first_groups(rt: &impl Print, claims: &[u8]) -> io::Result<()> {
    let old_t = [1000000; 5];
    ask_t(rt, claims, [1000000; 5], old_t)?;
    ask_t(
        rt,
        claims,
        [1100001, 1000000, 899999, 1000000, 1000000],
        old_t,
    )?;
    ask_t(
        rt,
        claims,
        [1100000, 1100001, 1000000, 1000000, 1100001],
        old_t,
    )?;
    ask_t(
        rt,
        claims,
        [900000, 1100000, 899999, 1100001, 1000000],
        old_t,
    )?;
    ask_t(rt, claims, [900000, 1100000, 1000000, 899999, 0], old_t)?;
    ask_t(rt, claims, [900000, 1100000, 1000000, 1000000, 0], old_t)
}

// Ten times the difference is the old one, or differs from it by less than ten.
fn differences(rt: &impl Print, claims: &[u8]) -> io::Result<()> {
    for (new, old) in [
        (990230, 1100256),
        (990230, 1100255),
        (20, 19),
        (21, 19),
        (11, 10),
        (10, 9),
        (9, 9),
        (0, 0),
        (1, 0),
        (0, 1),
    ] {
        ask_last(rt, claims, new, old)?;
    }
    Ok(())
}

// T of up to 2^64 - 1, at which ten times a difference needs more bits.
fn large_numbers(rt: &impl Print, claims: &[u8]) -> io::Result<()> {
    for (new, old) in [
        (u64::MAX, u64::MAX),
        (u64::MAX, 0),
        (0, u64::MAX),
        (16602069666338596454, u64::MAX),
        (16602069666338596453, u64::MAX),
        (u64::MAX, 16769767339735956014),
        (u64::MAX, 16769767339735956013),
        (3689348814741910324, 1844674407370955162),
        (2000000000000000000, 1844674407370955162),
    ] {
        ask_last(rt, claims, new, old)?;
    }
    Ok(())
}

// A bad valuation date comes before a bad list and a bad claim.
fn bad_dates(rt: &impl Print) -> io::Result<()> {
    ask(rt, 20210229, b"")?;
    ask(rt, 19491231, b"")?;
    ask(rt, 21000101, b"")?;
    ask(rt, 20200631, &[255u8; 33])?;
    ask_one(rt, 0, closed_claim(20190630, 0))
}

fn store(at: usize, byte: u8, bytes: &mut [u8]) {
    if let Some(place) = bytes.get_mut(at) {
        *place = byte;
    }
}

// A list of a claim and two sound ones, with one byte changed.
fn ask_changed(rt: &impl Print, at: usize, byte: u8, first: Claim) -> io::Result<()> {
    let mut bytes = three(first, open_claim(20190630), open_claim(20100630));
    store(at, byte, &mut bytes);
    ask(rt, 20200630, &bytes)
}

// A part record, and a wrong zero byte anywhere, come before every claim's number.
fn bad_lists(rt: &impl Print) -> io::Result<()> {
    let sound = open_claim(20190630);
    let bytes = three(sound, closed_claim(20190630, 7), sound);
    ask(rt, 20200630, &bytes[0..1])?;
    ask(rt, 20200630, &bytes[0..31])?;
    ask(rt, 20200630, &bytes[0..33])?;
    ask(rt, 20200630, &bytes[0..95])?;
    ask_changed(rt, 0, 255, sound)?;
    ask_changed(rt, 88, 0, sound)?;
    ask_changed(rt, 89, 1, sound)?;
    ask_changed(rt, 95, 128, sound)?;
    ask_changed(rt, 25, 1, sound)?;
    ask_changed(rt, 95, 1, closed_claim(20190630, 7))?;
    ask_changed(rt, 57, 1, closed_claim(20210229, 1))
}

// The first claim that fails answers, closed or open, by its own first check.
fn bad_claims(rt: &impl Print) -> io::Result<()> {
    let sound = open_claim(20190630);
    let no_date = open_claim(20190229);
    let no_code = closed_claim(20190630, 0);
    let mut late = closed_claim(20190630, 1);
    late.termination = date(20991230);
    let mut rich = open_claim(20190630);
    rich.benefit = 201;
    let short = open_claim(20991217);
    for claim in [no_date, no_code, late, rich, short] {
        ask_one(rt, 20200630, claim)?;
    }
    ask(rt, 20200630, &three(sound, short, no_date))?;
    ask(rt, 20200630, &three(sound, rich, short))?;
    ask(rt, 20200630, &three(late, no_code, no_date))?;
    ask(rt, 20200630, &three(sound, sound, no_code))
}
