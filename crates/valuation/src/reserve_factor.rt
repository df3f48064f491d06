// The reserve factor, in f64, one rounding per operation.
ghost use Rattle.std.specs.Prelude.{◌≡◌, ◌+◌, ◌≤◌};
ghost use Rattle.basics.specs.Limits.{last_duration};
ghost use Rattle.basics.specs.Refused.{number_refused};
ghost use Rattle.rates.specs.Rates.{rate_check};
ghost use Rattle.valuation.specs.Reserve.{month, month_duration, month_rate, running, reserve_check, reserve_in};

use crate::Reserve;
use crate::rate::{has_rate, rate_of};
use basics::Duration;
use basics::limits::LAST_DURATION;
use basics::refusal::Refusal;
use rates::{Cell, check, group};

// The running values: P, D and the sum.
#[derive(Clone, Copy)]
pub struct Running {
    pub p: f64,
    pub d: f64,
    pub sum: f64,
}

// One month with the valuation rate g and the discount v.
fn step(run: Running, g: u32, v: f64) -> Running
    requires { g ≤ 1000000 }
    ensures { result ≡ month run g v }
{
    let p = run.p * ((1000000 - g) as f64 / 1000000.0);
    let d = run.d * v;
    Running {
        p,
        d,
        sum: run.sum + p * d,
    }
}

// The duration of the month after n others: one later each month, at most 480.
#[tactic(auto, unfolding(crate::specs::Reserve::month_duration))]
fn later(first: Duration, n: u32) -> Duration
    requires { (first.0 ≤ last_duration) × (n ≤ last_duration) }
    ensures { result.0 ≡ month_duration first.0 (n + 1) }
{
    Duration((first.0 + n).min(LAST_DURATION))
}

// The months that a reserve factor covers, past their checks: those of a cell from a first duration on, at a discount.
#[derive(Clone, Copy)]
pub(crate) struct CheckedMonths<'a> {
    pub(crate) rates: &'a [u32],
    pub(crate) cell: Cell,
    pub(crate) first: Duration,
    pub(crate) months: u32,
    pub(crate) v: f64,
    ghost table_sound: { rate_check rates.now cell.0 ≡ 0 },
    ghost first_bound: { first.0 ≤ last_duration },
    ghost months_bound: { months ≤ last_duration },
}

impl CheckedMonths<'_> {
    // The valuation rate of the month after n others, with the T of its duration's group.
    fn month_rate(&self, t: [u64; 5], n: u32) -> u32
        requires { n ≤ last_duration }
        ensures { result ≡ month_rate self.now.rates.now self.now.cell.0 self.now.first.0 t (n + 1) }
    {
        let duration = later(self.first, n);
        let place = usize::from(group(duration)) - 1;
        rate_of(self.rates, self.cell, t[place], duration)
    }

    // The running values after all months.
    pub(crate) fn after(&self, t: [u64; 5]) -> Running
        ensures { result ≡ running self.now.rates.now self.now.cell.0 self.now.first.0 t self.now.v self.now.months }
    {
        let mut run = Running {
            p: 1.0,
            d: 1.0,
            sum: 0.0,
        };
        for n in 0..self.months {
            run = step(run, self.month_rate(t, n), self.v);
        }
        run
    }
}

// The first of the checks 6 to 8, 12 and 13 that fails.
// Kept: behind its checks what travels together is `CheckedMonths`; before them these are the parameters of `reserve_factor`, which is public.
fn reserve_check(
    rates: &[u32],
    cell: Cell,
    first: Duration,
    months: u32,
    v: f64,
) -> Result<(), Refusal>
    ensures { number_refused result ≡ reserve_check rates.now cell.0 first.0 months v }
{
    check(rates, cell)?;
    if !has_rate(first) || months > LAST_DURATION {
        return Err(Refusal::Valuation);
    }
    if v > 0.0 && v <= 1.0 {
        return Ok(());
    }
    Err(Refusal::Discount)
}

// The reserve factor of a cell from a first duration on, over the given months, or the number refused.
pub fn reserve_factor(
    rates: &[u32],
    cell: Cell,
    first: Duration,
    t: [u64; 5],
    months: u32,
    v: f64,
) -> Reserve
    ensures { result ≡ reserve_in rates.now cell.0 first.0 t months v }
{
    match reserve_check(rates, cell, first, months, v) {
        Ok(()) => {
            let checked = CheckedMonths {
                rates,
                cell,
                first,
                months,
                v,
            };
            Reserve::Factor(checked.after(t).sum)
        }
        Err(refusal) => Reserve::Refused(u8::from(refusal)),
    }
}
