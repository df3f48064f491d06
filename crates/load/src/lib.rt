// A load that anyone can rebuild (document 02, No. 13).
#![tactic(auto)]

ghost use Rattle.std.specs.Prelude.{◌≡◌, ◌+◌, ◌≤◌};
ghost use Rattle.basics.specs.Refused.{numbered};
ghost use Rattle.calendar.specs.Calendar.{date_of, last_day_number};
ghost use Rattle.load.specs.Load.{draw, drawn, load_claim, step_sound, load_step};
ghost use Rattle.load.specs.design.Private.{ending_of};

use basics::limits::MOST_CLAIMS;
use basics::refusal::Refusal;
use calendar::{Date, Day};
use claim_months::{Claim, NO_DATE};

// The last seed: seeds are from 1 on.
pub const LAST_SEED: u32 = 2147483646;

// A step's claim and the x reached.
#[derive(Clone, Copy)]
pub struct LoadedClaim {
    pub claim: Claim,
    pub x: u32,
}

// What a claim ends with: termination date and code, and the x reached.
// Kept: no `Option`, since an open claim's own fields hold code 0 and a missing date.
#[derive(Clone, Copy)]
struct Ending {
    termination: Date,
    code: u8,
    x: u32,
}

// The x that a draw sets, and is.
fn draw(x: u32) -> u32
    ensures { result ≡ draw x }
{
    (48271 * u64::from(x) % 2147483647) as u32
}

// The date of a day number.
#[tactic(auto, unfolding(calendar::specs::DayAnswers::date_at))]
fn date_on(day: Day) -> Date
    requires { day.0 ≤ last_day_number }
    ensures { result ≡ date_of day.0 }
{
    calendar::date_of_day(day).unwrap()
}

// The last two draws of a claim, from the x that the third set: what a closed claim ends with, and the x reached. They are made of an open claim
// too, which has no end.
// Kept: whether it is closed is a bool, since both draws are made either way.
fn last_draws(closed: bool, bcd: Day, x: u32) -> Ending
    requires { bcd.0 + 3999 ≤ last_day_number }
    ensures { result ≡ ending_of closed bcd.0 x }
{
    let fourth = draw(x);
    let fifth = draw(fourth);
    if closed {
        return Ending {
            termination: date_on(Day(bcd.0 + fourth % 4000)),
            code: 1 + (fifth % 5) as u8,
            x: fifth,
        };
    }
    Ending {
        termination: NO_DATE,
        code: 0,
        x: fifth, // not the x given: both draws are made
    }
}

// The claim with a number that x gives, by five draws whatever the claim, and the x reached.
fn loaded(x: u32, number: u32) -> LoadedClaim
    ensures { result ≡ record { claim = load_claim x number; x = drawn 5 x } }
{
    let first = draw(x);
    let second = draw(first);
    let third = draw(second);
    let disability = Day(first % 20000);
    let bcd = Day(disability.0 + (15 + second % 351));
    let status = (third % 2) as u8;
    let end = last_draws(status == 1, bcd, third);
    let claim = Claim {
        number,
        disability: date_on(disability),
        bcd: date_on(bcd),
        termination: end.termination,
        maximum: NO_DATE,
        status,
        code: end.code,
        cell: 0,
        benefit: 0,
    };
    LoadedClaim { claim, x: end.x }
}

// Whether a seed, a size and a claim number are those of a step.
#[tactic(auto, unfolding(crate::specs::Load::seed_sound, crate::specs::Load::step_sound))]
fn is_step(x: u32, size: u32, number: u32) -> bool
    ensures { result ≡ step_sound x size number }
{
    (1..=LAST_SEED).contains(&x) && size <= MOST_CLAIMS && (1..=size).contains(&number)
}

// A step of a load: the claim with the number due and the x reached, or 20.
pub fn load_claim(x: u32, size: u32, number: u32) -> Result<LoadedClaim, Refusal>
    ensures { numbered result ≡ load_step x size number }
{
    if !is_step(x, size, number) {
        return Err(Refusal::Load);
    }
    Ok(loaded(x, number))
}
