// What a claim weighs in the weighted sums (document 02, No. 7).
ghost use Rattle.std.specs.Prelude.{◌≡◌};
ghost use Rattle.claim_months.specs.Claim.{weight};

use crate::Claim;

// Its benefit; a 0 weighs as 1.
#[tactic(auto, unfolding(crate::specs::Claim::weight))]
pub fn weight_of(claim: Claim) -> u8
    ensures { result ≡ weight claim }
{
    claim.benefit.max(1)
}
