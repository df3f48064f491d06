// The refusals of document 01's table, under its words and in the order of its numbers, and those that document 02 adds.
ghost use Rattle.std.specs.Prelude.{◌≡◌};
ghost use Rattle.basics.specs.Refused.{number_of, number_refused, number_in};

#[derive(Clone, Copy, Debug, PartialEq, Eq)]
pub enum Refusal {
    Window = 1,
    Date,
    Status,
    Sequence,
    ShortElimination,
    RateTable,
    Cell,
    Rate,
    Full,
    ShortList,
    Block,
    Valuation,
    Discount,
    TooManyRecords,
    OtherWindow,
    Benefit,
    OpenClaims,
    Withdrawal,
    NoCount,
    Load,
}

// Its number in the table.
impl From<Refusal> for u8 {
    ghost from_gives = { λ refusal number. number ≡ number_of refusal };

    fn from(refusal: Refusal) -> u8 {
        refusal as u8
    }
}

// The number of the first check that failed, or 0.
pub fn number_refused(checked: Result<(), Refusal>) -> u8
    ensures { result ≡ number_refused checked }
{
    number_in(checked.err())
}

// The number of a refusal, if there was one, or 0.
pub fn number_in(refused: Option<Refusal>) -> u8
    ensures { result ≡ number_in refused }
{
    match refused {
        None => 0,
        Some(refusal) => u8::from(refusal),
    }
}
