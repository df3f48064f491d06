// The small company rule (document 02, No. 14): a carrier with few open claims is exempt and keeps the table.
#![tactic(auto)]

ghost use Rattle.std.specs.Prelude.{◌≡◌, true, ◌<◌, ◌≤◌};
ghost use Rattle.basics.specs.Refused.{numbered};
ghost use Rattle.calendar.specs.Calendar.{is_date};
ghost use Rattle.small_company.specs.SmallCompany.{list_sound, listed_claims, two_years_before, first_within, moves_far, first_moved, company_of};
ghost use Rattle.small_company.specs.Company.{company_by_number};
ghost use Rattle.small_company.specs.design.Private.{with_one, counted_of, exempt_by, judged_of};

use basics::refusal::Refusal;
use calendar::{Date, Day};
use claim_file::record::read_record;
use claim_months::Claim;

// What a carrier is told: whether it is exempt, both counts, the first group that moved far or 0, and five T.
// Kept: group 0 is none, as the definitions and the C call have it; an `Option` lets `Some(0)` stand too, which a further clause would have to bar.
#[derive(Clone, Copy)]
pub struct Company {
    pub exempt: bool,
    pub recent: u64,
    pub earlier: u64,
    pub group: u8,
    pub t: [u64; 5],
}

// Open claims disabled within two years of the valuation date, and earlier.
#[derive(Clone, Copy)]
struct Counts {
    recent: u64,
    earlier: u64,
}

// Whether a list is made of records: none in part at its end, and no wrong zero byte.
fn is_list(bytes: &[u8]) -> bool
    ensures { result ≡ list_sound bytes.now }
{
    if bytes.len() % 32 != 0 {
        return false;
    }
    let records = bytes.len() / 32;
    (0..records).all(|place| read_record(bytes, 32 * place).is_some())
}

// The same day two years before; 29 February becomes 28.
fn two_years_before(date: Date) -> Date
    requires { 2 ≤ date.year }
    ensures { result ≡ two_years_before date }
{
    let day = if date.month == 2 && date.day == 29 {
        28
    } else {
        date.day
    };
    Date {
        year: date.year - 2,
        month: date.month,
        day,
    }
}

// The first day that counts as within two years of a date.
fn first_within(date: Date) -> Day
    requires { is_date date ≡ true }
    ensures { result.0 ≡ first_within date }
{
    if date.year < 1952 {
        return Day(0);
    }
    calendar::day_number(two_years_before(date)).unwrap()
}

// Both counts with one more claim.
fn count_one(counts: Counts, claim: Claim, first: Day, last: Day) -> Counts
    requires disability_value { is_date claim.disability ≡ true }
    requires recent_bound { counts.recent < 18446744073709551615 }
    requires earlier_bound { counts.earlier < 18446744073709551615 }
    ensures { result ≡ with_one first.0 last.0 counts claim }
{
    let disabled = calendar::day_number(claim.disability).unwrap();
    if claim.status != 0 || disabled.0 > last.0 {
        return counts;
    }
    if disabled.0 < first.0 {
        return Counts {
            earlier: counts.earlier + 1,
            ..counts
        };
    }
    Counts {
        recent: counts.recent + 1,
        ..counts
    }
}

// Both counts of a list's claims. The first claim that fails a check of its own ends it.
fn count_claims(bytes: &[u8], first: Day, last: Day) -> Result<Counts, Refusal>
    requires { list_sound bytes.now ≡ true }
    ensures { numbered result ≡ counted_of first.0 last.0 (listed_claims bytes.now) }
{
    let mut counts = Counts {
        recent: 0,
        earlier: 0,
    };
    let count = bytes.len() / 32;
    // Kept: over `as_chunks::<32>()` the proof that a chunk's claim is the list's claim at its place didn't close.
    for place in 0..count {
        let claim = read_record(bytes, 32 * place).unwrap();
        claim_months::check::check(claim)?;
        counts = count_one(counts, claim, first, last);
    }
    Ok(counts)
}

// Whether ten times the difference of a new T and the old one exceeds the old. Ten times it needn't fit 64 bits.
fn moves_far(new: u64, old: u64) -> bool
    ensures { result ≡ moves_far new old }
{
    new.abs_diff(old) > old / 10
}

// The first group in which T moves far, or 0.
fn first_moved(new: [u64; 5], old: [u64; 5]) -> u8
    ensures { result ≡ first_moved new old 0 5 }
{
    let mut pairs = new.iter().zip(&old);
    match pairs.position(|(new, old)| moves_far(*new, *old)) {
        Some(place) => place as u8 + 1,
        None => 0,
    }
}

// Whether both counts are below their limits.
fn is_exempt(counts: Counts) -> bool
    ensures { result ≡ exempt_by counts }
{
    counts.recent < 50 && counts.earlier < 200
}

// What both counts and the T mean: an exempt carrier gets 1,000,000 for all five T, another the new ones.
fn judged(counts: Counts, new_t: [u64; 5], old_t: [u64; 5]) -> Company
    ensures { company_by_number (Ok result) ≡ judged_of counts new_t old_t }
{
    if is_exempt(counts) {
        return Company {
            exempt: true,
            recent: counts.recent,
            earlier: counts.earlier,
            group: 0,
            t: [1000000; 5],
        };
    }
    Company {
        exempt: false,
        recent: counts.recent,
        earlier: counts.earlier,
        group: first_moved(new_t, old_t),
        t: new_t,
    }
}

// The small company rule for a valuation date, a claim list of records, the five new T and the five now in use.
pub fn small_company(
    date: Date,
    claims: &[u8],
    new_t: [u64; 5],
    old_t: [u64; 5],
) -> Result<Company, Refusal>
    ensures { company_by_number result ≡ company_of date claims.now new_t old_t }
{
    let last = calendar::day_number(date).ok_or(Refusal::Date)?;
    if !is_list(claims) {
        return Err(Refusal::Block);
    }
    let first = first_within(date);
    let counts = count_claims(claims, first, last)?;
    Ok(judged(counts, new_t, old_t))
}
