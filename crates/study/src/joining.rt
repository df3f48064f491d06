// Joining two studies of one window (document 02, No. 3).
ghost use Rattle.std.specs.Prelude.{◌≡◌, true, ◌+◌, ◌*◌, ◌≤◌, leb, nat_abs, ◌+ℤ◌};
ghost use Rattle.basics.specs.Limits.{most_benefit, most_expected};
ghost use Rattle.basics.specs.Refused.{number_refused};
ghost use Rattle.study.specs.Answers.{by_number};
ghost use Rattle.study.specs.Sums.{plus, within};
ghost use Rattle.study.specs.Joining.{join_room, join_check, joined};
ghost use Rattle.study.specs.design.Private.{group_together};

use crate::pairs::each;
use crate::sums::{bound_at, has_room, is_within};
use crate::{Answer, Study};
use basics::limits::MOST_CLAIMS;
use basics::refusal::Refusal;
use claim_months::windows::is_sound;

// Whether the sum of two numbers lies from −bound to bound. One that 64 bits don't hold is past every bound.
fn sum_within(a: i64, b: i64, bound: u64) -> bool
    requires { bound ≤ most_benefit * most_expected }
    ensures { result ≡ leb (nat_abs (a +ℤ b)) bound }
{
    match a.checked_add(b) {
        Some(sum) => is_within(sum, bound),
        None => false,
    }
}

// Whether the sums of a group of two lists, from a place on, are within their bounds together.
// Kept: the bound is asked for by the place; a `zip` with it numbered has a place beside a pair.
fn group_together(a: &[i64; 80], b: &[i64; 80], at: usize) -> bool
    requires { at + 8 ≤ 80 }
    ensures { result ≡ group_together a.now b.now at }
{
    (at..at + 8).all(|place| sum_within(a[place], b[place], bound_at(place)))
}

// Whether two lists of sums within the bounds of refusal 9 are there together. Group by group, so that the columns' bounds are constants.
fn together_within(a: &[i64; 80], b: &[i64; 80]) -> bool
    requires a_value { within a.now ≡ true }
    requires b_value { within b.now ≡ true }
    ensures { result ≡ within (plus a.now b.now) }
{
    (0..10).all(|group| group_together(a, b, 8 * group))
}

// Check 9 of a join: the counts of claims are compared without adding, since 32 bits may not hold both.
#[tactic(auto, unfolding(crate::specs::Joining::join_room))]
fn have_room(study: Study, other: Study) -> bool
    ensures { result ≡ join_room study other }
{
    study.taken <= MOST_CLAIMS
        && other.taken <= MOST_CLAIMS - study.taken
        && has_room(&study.sums)
        && has_room(&other.sums)
        && together_within(&study.sums, &other.sums)
}

// The first check of a join that fails.
#[tactic(auto, using(basics::proofs::Checks::then_is), unfolding(crate::specs::Joining::join_check, crate::specs::Joining::same_window, claim_months::specs::Windows::window_check))]
fn join_check(study: Study, other: Study) -> Result<(), Refusal>
    ensures { number_refused result ≡ join_check study other }
{
    let window = study.window;
    let other_window = other.window;
    if !is_sound(window) || !is_sound(other_window) {
        return Err(Refusal::Window);
    }
    if window != other_window {
        return Err(Refusal::OtherWindow);
    }
    if !have_room(study, other) {
        return Err(Refusal::Full);
    }
    Ok(())
}

impl Study {
    // Both studies as one, or this one with the number of the first check that failed.
    pub fn join(self, other: Study) -> Answer
        ensures { by_number result ≡ joined self other }
    {
        if let Err(refusal) = join_check(self, other) {
            return self.refused(refusal);
        }
        Answer {
            refused: None,
            study: Study {
                taken: self.taken + other.taken,
                sums: each(|x, y| x + y, &self.sums, &other.sums),
                ..self
            },
        }
    }
}
