// Taking a claim back (document 02, No. 10).
ghost use Rattle.std.specs.Prelude.{◌≡◌};
ghost use Rattle.basics.specs.Refused.{number_refused};
ghost use Rattle.study.specs.Answers.{by_number};
ghost use Rattle.study.specs.Withdrawing.{covers, withdrawn};
ghost use Rattle.study.specs.design.PreparedWithdrawing.{withdrawn_with};
ghost use Rattle.study.specs.design.Private.{last_checks};

use crate::adding::add_to;
use crate::pairs::each;
use crate::sums::{has_room, is_count};
use crate::{Answer, Study};
use basics::limits::MOST_CLAIMS;
use basics::refusal::Refusal;
use claim_months::Claim;
use claim_months::windows::window_months;
use rates::Kind;
use rates::prepared::rate_table;

// Whether no count falls below zero if a share is taken off.
// Kept: the place says which column it is; a `zip` with it numbered has a place beside a pair.
fn has_counts(sums: &[i64; 80], share: &[i64; 80]) -> bool
    ensures { result ≡ covers sums.now share.now }
{
    (0..80).all(|place| !is_count(place % 8) || sums[place] >= share[place])
}

// The checks 9 and 18 of a withdrawal, of the claims taken, the sums and the claim's share.
#[tactic(auto, using(basics::proofs::Checks::then_is), unfolding(crate::specs::design::Private::last_checks))]
fn last_checks(taken: u32, sums: &[i64; 80], share: &[i64; 80]) -> Result<(), Refusal>
    ensures { number_refused result ≡ last_checks taken sums.now share.now }
{
    if taken > MOST_CLAIMS || !has_room(sums) {
        return Err(Refusal::Full);
    }
    if taken == 0 || !has_counts(sums, share) {
        return Err(Refusal::Withdrawal);
    }
    Ok(())
}

impl Study {
    // The study without a claim of its own, with a table of either kind, or as given with the number of the first check that failed. A claim's share
    // is what adding it makes of no sums.
    pub fn withdraw_with(self, kind: Kind, table: &[u32], claim: Claim) -> Answer
        ensures { by_number result ≡ withdrawn_with kind self claim table.now }
    {
        let mut share = [0; 80];
        let table = rate_table(kind, table);
        let window = window_months(self.window);
        if let Err(refusal) = add_to(&table, claim, window, 0, true, &mut share) {
            return self.refused(refusal);
        }
        if let Err(refusal) = last_checks(self.taken, &self.sums, &share) {
            return self.refused(refusal);
        }
        Answer {
            refused: None,
            study: Study {
                taken: self.taken - 1,
                sums: each(|x, y| x - y, &self.sums, &share),
                ..self
            },
        }
    }

    // The same with plain rates.
    #[tactic(auto, using(crate::proofs::PreparedWithdrawing::plain_rates))]
    pub fn withdraw(self, claim: Claim, rates: &[u32]) -> Answer
        ensures { by_number result ≡ withdrawn self claim rates.now }
    {
        self.withdraw_with(Kind::Plain, rates, claim)
    }
}
