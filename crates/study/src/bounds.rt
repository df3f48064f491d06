// Bounds of a group's sums, by column.
ghost use Rattle.std.specs.Prelude.{◌≤◌};
ghost use Rattle.basics.specs.Limits.{most_expected};

#[derive(Clone, Copy)]
pub(crate) struct Bounds {
    pub thirtieths: u64,
    pub count: u64,
    pub expected: u64,
    pub ghost few_thirtieths: { thirtieths ≤ most_expected },
    pub ghost few_counts: { count ≤ most_expected },
    pub ghost few_expected: { expected ≤ most_expected },
}
