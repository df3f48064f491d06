// The valuation's calls.
ghost use Rattle.std.specs.Prelude.{◌≡◌};
ghost use Rattle.valuation.specs.Rate.{rate_in};
ghost use Rattle.valuation.specs.Factor.{factor_in};
ghost use Rattle.valuation.specs.Reserve.{reserve_in};
ghost use Rattle.valuation.specs.ReserveLimit.{limit_of};
ghost use Rattle.valuation.specs.WantedCount.{wanted_in};
ghost use Rattle.study_list.specs.Lent.{answered, stored};
ghost use Rattle.c_abi.specs.Abi.{number_answered, factor_number, factor_stored, reserve_answered, reserve_after, limit_answered, limit_set, limit_totals};

use crate::answers::number_answered;
use basics::Duration;
use basics::limits::NO_FORM;
use rates::Cell;
use valuation::Reserve;

// The valuation rate, or 2^32 + the number refused.
#[unsafe(no_mangle)]
pub extern "C" fn ltd_valuation_rate(rates: &[u32], cell: u32, t: u64, duration: u32) -> u64
    ensures { result ≡ number_answered (rate_in rates.now cell t duration) }
{
    number_answered(valuation::rate::valuation_rate(rates, Cell(cell), t, Duration(duration)))
}

// The smallest count of closings that reaches a wanted T, or 2^32 + the number refused.
#[unsafe(no_mangle)]
pub extern "C" fn ltd_wanted_count(group: u8, expected: i64, wanted: u64) -> u64
    ensures { result ≡ number_answered (wanted_in group expected wanted) }
{
    number_answered(valuation::wanted_count::wanted_count(group, expected, wanted))
}

// z, m and T of a group.
#[unsafe(no_mangle)]
pub extern "C" fn ltd_factor(group: u8, terminations: u32, expected: i64, out: &mut [u64]) -> u8
    ensures value { result ≡ answered 3 out.old (factor_number (factor_in group terminations expected)) }
    ensures out_after { out.new ≡ stored 3 out.old (factor_stored out.old (factor_in group terminations expected)) }
{
    if out.len() < 3 {
        return NO_FORM;
    }
    match valuation::factor::factor(group, terminations, expected) {
        Ok(factor) => {
            out[0] = u64::from(factor.z);
            out[1] = u64::from(factor.m);
            out[2] = factor.t;
            0
        }
        Err(refusal) => u8::from(refusal),
    }
}

// The reserve factor.
#[unsafe(no_mangle)]
pub extern "C" fn ltd_reserve_factor(
    rates: &[u32],
    cell: u32,
    first: u32,
    t: &[u64],
    months: u32,
    v: f64,
    out: &mut [f64],
) -> u8
    ensures value { result ≡ reserve_answered t.now out.old (reserve_in rates.now cell first t.now months v) }
    ensures out_after { out.new ≡ reserve_after t.now out.old (reserve_in rates.now cell first t.now months v) }
{
    let Ok(t) = <[u64; 5]>::try_from(t) else {
        return NO_FORM;
    };
    if out.len() < 1 {
        return NO_FORM;
    }
    let first = Duration(first);
    match valuation::reserve_factor::reserve_factor(rates, Cell(cell), first, t, months, v) {
        Reserve::Factor(factor) => {
            out[0] = factor;
            0
        }
        Reserve::Refused(number) => number,
    }
}

// The set of T that the limit on reserves allows, and both totals: with the given T, and with T replaced.
#[unsafe(no_mangle)]
pub extern "C" fn ltd_reserve_limit(
    rates: &[u32],
    open_claims: &[u32],
    t: &[u64],
    group_3_count: u64,
    v: f64,
    t_out: &mut [u64],
    totals: &mut [f64],
) -> u8
    ensures value { result ≡ limit_answered t.now t_out.old totals.old (limit_of rates.now open_claims.now t.now group_3_count v) }
    ensures t_out_after { t_out.new ≡ limit_set t.now t_out.old totals.old (limit_of rates.now open_claims.now t.now group_3_count v) }
    ensures totals_after { totals.new ≡ limit_totals t.now t_out.old totals.old (limit_of rates.now open_claims.now t.now group_3_count v) }
{
    let Ok(t) = <[u64; 5]>::try_from(t) else {
        return NO_FORM;
    };
    if t_out.len() < 5 || totals.len() < 2 {
        return NO_FORM;
    }
    match valuation::reserve_limit::reserve_limit(rates, open_claims, t, group_3_count, v) {
        Ok(limit) => {
            t_out[..5].copy_from_slice(&limit.t);
            totals[0] = limit.given;
            totals[1] = limit.replaced;
            0
        }
        Err(refusal) => u8::from(refusal),
    }
}
