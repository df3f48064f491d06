// A span's share of a study, added to the lent sums: a band of months for each group, and the closing.
ghost use Rattle.std.specs.Prelude.{◌≡◌, ◌+◌, ◌-◌, ◌≤◌, ◌<◌};
ghost use Rattle.basics.specs.Limits.{most_benefit};
ghost use Rattle.claim_months.specs.Span.{SpanBounds};
ghost use Rattle.rates.specs.Rates.{group_of};
ghost use Rattle.rates.specs.design.Prepared.{part_recovery, part_death};
ghost use Rattle.study.specs.design.LentAdding.{guarded_plus};
ghost use Rattle.study.specs.design.Private.{closing_figure, span_figure, share_by};

use crate::amounts::{part_month, whole_months};
use crate::sums::{raise_amounts, raise_both};
use basics::Duration;
use claim_months::{Span, Thirtieths};
use rates::{Kind, group, last_of};

// A claim's span, and how often it counts in the weighted set.
#[derive(Clone, Copy)]
pub(crate) struct Share {
    pub span: Span,
    pub weight: u8,
    pub ghost span_bounds: { SpanBounds span },
    pub ghost weight_bound: { weight ≤ most_benefit },
}

// The duration that a span's sums are taken from: 2 of running sums, since a sum from there is one number; of plain rates the span's first, which has
// the fewest to add.
fn sums_from(kind: Kind, first: Duration) -> Duration
    requires { 2 ≤ first.0 }
    ensures lower_bound { 2 ≤ result.0 }
    ensures upper_bound { result.0 ≤ first.0 }
{
    match kind {
        Kind::Plain => first,
        Kind::Prepared => Duration(2),
    }
}

impl Share {
    // Adds the span's months to the sums of their groups, and its closing. What its months have up to the end of a group, less what they have up to the
    // end of the group before, is that group's: so each band takes one look at the rates.
    // Kept: `while`, as each step goes to its group's end, and no range has these steps.
    #[tactic(auto, using(crate::proofs::Places::group_range))]
    #[inline(always)]
    pub(crate) fn add(self, kind: Kind, part: &[u32], sums: &mut [i64; 80])
        ensures { sums.new ≡ guarded_plus sums.old (share_by self.weight (span_figure (part_recovery kind part.now) (part_death kind part.now) self.span)) }
    {
        let span = self.span;
        if span.months == 0 {
            return;
        }
        let last = Duration(span.first.0 + (span.months - 1));
        let from = sums_from(kind, span.first);
        let missing = part_month(kind, part, span.first, span.before);
        let mut before = whole_months(kind, part, from, span.first.0 - from.0).plus(missing);
        let mut band = group(span.first);
        let mut end = last_of(band);
        while end.0 < last.0 {
            let up_to = whole_months(kind, part, from, end.0 + 1 - from.0);
            raise_amounts(sums, band, up_to.less(before), self.weight);
            before = up_to;
            band += 1;
            end = last_of(band);
        }
        let short = part_month(kind, part, last, Thirtieths(30 - span.through.0));
        let all = whole_months(kind, part, from, last.0 + 1 - from.0).less(short);
        raise_amounts(sums, band, all.less(before), self.weight);
        self.add_closing(band, sums);
    }

    // Counts the span's closing month, if it has one, under its group and category, and its weight at the same place of the weighted set.
    #[tactic(auto, using(crate::proofs::Places::group_range))]
    fn add_closing(self, group: u8, sums: &mut [i64; 80])
        requires months_nonzero { 0 < self.span.months }
        requires group_value { group ≡ group_of (self.span.first.0 + (self.span.months - 1)) }
        ensures { sums.new ≡ guarded_plus sums.old (share_by self.weight (closing_figure self.span)) }
    {
        let category = self.span.category;
        if category == 0 {
            return;
        }
        raise_both(sums, group, category, 1, self.weight, false);
    }
}
