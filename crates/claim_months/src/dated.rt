// A claim with its days.
ghost use Rattle.std.specs.Prelude.{◌≡◌, true};
ghost use Rattle.claim_months.specs.Claim.{dates_sound};
ghost use Rattle.claim_months.specs.design.Private.{days_of};

use crate::{Claim, ClaimDays};

// A claim that passes check 2, with the day numbers of its dates.
#[derive(Clone, Copy)]
pub(crate) struct DatedClaim {
    pub(crate) claim: Claim,
    pub(crate) days: ClaimDays,
    ghost passes: { dates_sound claim ≡ true },
    ghost days_are: { days ≡ days_of claim },
}
