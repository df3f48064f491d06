// The 1.30 limit judged on the total reserves of open claims disabled over two years (document 02, No. 9).
ghost use Rattle.std.specs.Prelude.{◌≡◌, ◌+◌, ◌<◌, Ok};
ghost use Rattle.basics.specs.Refused.{numbered, number_of};
ghost use Rattle.valuation.specs.LimitAnswers.{limit_by_number};
ghost use Rattle.valuation.specs.ReserveLimit.{claims_open_in, replaced_t, limit_of};
ghost use Rattle.valuation.specs.design.Private.{handed_on, totals_of};

use crate::reserve_factor::{CheckedMonths, reserve_factor};
use crate::{Limit, Reserve};
use basics::Duration;
use basics::limits::MOST_OPEN_CLAIMS;
use basics::refusal::Refusal;
use rates::Cell;

// T where the limit puts it.
const LIMIT: u64 = 1300000;

// The total reserves of the first claims, with the given T and with T replaced.
#[derive(Clone, Copy)]
pub struct Totals {
    pub given: f64,
    pub replaced: f64,
}

// T at its limit in groups 3 to 5, but group 3 kept where 5,000 terminations stand behind it.
#[tactic(auto, unfolding(crate::specs::ReserveLimit::replaced_t))]
fn replaced_t(t: [u64; 5], count: u64) -> [u64; 5]
    ensures { result ≡ replaced_t t count }
{
    let [first, second, third, _, _] = t;
    if count >= 5000 {
        return [first, second, third, LIMIT, LIMIT];
    }
    [first, second, LIMIT, LIMIT, LIMIT]
}

// The refusal that the factor call handed on by its number: 6, 7, 8, 12 or 13.
fn handed_on(number: u8) -> Refusal
    ensures { number_of result ≡ handed_on number }
{
    match number {
        6 => Refusal::RateTable,
        7 => Refusal::Cell,
        8 => Refusal::Rate,
        12 => Refusal::Valuation,
        _ => Refusal::Discount,
    }
}

// Both totals with one more claim: the factor call checks it and has its factor with the given T; then its duration is checked, and it has the other.
fn with_claim(
    totals: Totals,
    rates: &[u32],
    list: &[u32],
    place: usize,
    t: [u64; 5],
    other: [u64; 5],
    v: f64,
) -> Result<Totals, Refusal>
    requires place_bound { place < claims_open_in list.now }
    requires totals_value { Ok totals ≡ totals_of rates.now list.now t other v place }
    ensures { numbered result ≡ totals_of rates.now list.now t other v (place + 1) }
{
    let cell = Cell(list[3 * place]);
    let first = Duration(list[3 * place + 1]);
    let months = list[3 * place + 2];
    match reserve_factor(rates, cell, first, t, months, v) {
        Reserve::Refused(number) => Err(handed_on(number)),
        Reserve::Factor(given) => {
            if first.0 <= 24 {
                return Err(Refusal::OpenClaims);
            }
            let checked = CheckedMonths {
                rates,
                cell,
                first,
                months,
                v,
            };
            let replaced = checked.after(other);
            Ok(Totals {
                given: totals.given + given,
                replaced: totals.replaced + replaced.sum,
            })
        }
    }
}

// Both totals of all claims, in list order, up to the first that fails a check.
fn totals_of(
    rates: &[u32],
    list: &[u32],
    t: [u64; 5],
    other: [u64; 5],
    v: f64,
) -> Result<Totals, Refusal>
    ensures { numbered result ≡ totals_of rates.now list.now t other v (claims_open_in list.now) }
{
    let mut totals = Totals {
        given: 0.0,
        replaced: 0.0,
    };
    // Kept: the contracts count claims by their place, and not by the three numbers of each.
    for place in 0..list.len() / 3 {
        totals = with_claim(totals, rates, list, place, t, other, v)?;
    }
    Ok(totals)
}

// The set of T that the limit allows: the given one unless its total reserve is less than with T replaced. Both totals go with it.
// Kept: an open claim is three numbers of a list, as the C call lends it; a list of structs would be a copy of up to 2,000.
pub fn reserve_limit(
    rates: &[u32],
    list: &[u32],
    t: [u64; 5],
    count: u64,
    v: f64,
) -> Result<Limit, Refusal>
    ensures { limit_by_number result ≡ limit_of rates.now list.now t count v }
{
    if list.len() % 3 != 0 || list.len() / 3 > MOST_OPEN_CLAIMS {
        return Err(Refusal::OpenClaims);
    }
    let other = replaced_t(t, count);
    let totals = totals_of(rates, list, t, other, v)?;
    let t = if totals.given < totals.replaced {
        other
    } else {
        t
    };
    Ok(Limit {
        t,
        given: totals.given,
        replaced: totals.replaced,
    })
}
