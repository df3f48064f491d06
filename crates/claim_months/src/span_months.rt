// What a span says of its months, by their place from 0.
ghost use Rattle.std.specs.Prelude.{◌≡◌};
ghost use Rattle.claim_months.specs.Span.{span_u, span_b, span_thirtieths};

use crate::{Span, Thirtieths};

impl Span {
    // U of a month.
    #[tactic(auto, unfolding(crate::specs::Span::span_u))]
    pub fn through_at(self, place: u32) -> Thirtieths
        ensures { result.0 ≡ span_u self place }
    {
        if self.months > 0 && place == self.months - 1 {
            return self.through;
        }
        Thirtieths(30)
    }

    // B of a month.
    #[tactic(auto, unfolding(crate::specs::Span::span_b))]
    pub fn before_at(self, place: u32) -> Thirtieths
        ensures { result.0 ≡ span_b self place }
    {
        if place == 0 {
            return self.before;
        }
        Thirtieths(0)
    }

    // The thirtieths of a month, U − B, which may be below 0.
    pub fn thirtieths(self, place: u32) -> i64
        ensures { result ≡ span_thirtieths self place }
    {
        i64::from(self.through_at(place).0) - i64::from(self.before_at(place).0)
    }
}
