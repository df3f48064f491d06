// The valuation rate of a T, cell and duration, in millionths.
ghost use Rattle.std.specs.Prelude.{◌≡◌, ◌*◌, ◌/◌, min};
ghost use Rattle.basics.specs.Refused.{numbered};
ghost use Rattle.rates.specs.Rates.{rate_check};
ghost use Rattle.valuation.specs.Rate.{valuation_rate, duration_sound, rate_in};

use basics::Duration;
use basics::limits::LAST_DURATION;
use basics::refusal::Refusal;
use rates::{Cell, check, death, recovery};

// min(1,000,000, floor(t × s / 1,000,000)). A product that doesn't fit 64 bits is far above 10^12, from which on it is 1,000,000.
fn scaled(t: u64, s: u32) -> u32
    ensures { result ≡ min 1000000 (t * s / 1000000) }
{
    let g = t.saturating_mul(u64::from(s)) / 1000000;
    g.min(1000000) as u32
}

// Whether a duration has a valuation rate.
#[tactic(auto, unfolding(crate::specs::Rate::duration_sound))]
pub(crate) fn has_rate(duration: Duration) -> bool
    ensures { result ≡ duration_sound duration.0 }
{
    (2..=LAST_DURATION).contains(&duration.0)
}

// The valuation rate where the checks 6 to 8 have passed.
pub(crate) fn rate_of(rates: &[u32], cell: Cell, t: u64, duration: Duration) -> u32
    requires { rate_check rates.now cell.0 ≡ 0 }
    ensures { result ≡ valuation_rate rates.now cell.0 t duration.0 }
{
    scaled(
        t,
        recovery(rates, cell, duration) + death(rates, cell, duration),
    )
}

// The valuation rate of a T, cell and duration, or the first check that fails.
pub fn valuation_rate(rates: &[u32], cell: Cell, t: u64, duration: Duration) -> Result<u32, Refusal>
    ensures { numbered result ≡ rate_in rates.now cell.0 t duration.0 }
{
    check(rates, cell)?;
    if !has_rate(duration) {
        return Err(Refusal::Valuation);
    }
    Ok(rate_of(rates, cell, t, duration))
}
