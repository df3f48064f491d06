// Answers of 64 bits: a number, or 2^32 + the number refused.
ghost use Rattle.std.specs.Prelude.{◌≡◌};
ghost use Rattle.basics.specs.Refused.{numbered};
ghost use Rattle.c_abi.specs.Abi.{number_answered};

use basics::refusal::Refusal;

// The answer where a lent list has not its length, or a record not its form: 2^32 + 255.
pub(crate) const NO_FORM_NUMBER: u64 = 4294967551;

pub(crate) fn number_answered(answer: Result<u32, Refusal>) -> u64
    ensures { result ≡ number_answered (numbered answer) }
{
    match answer {
        Ok(number) => u64::from(number),
        Err(refusal) => 4294967296 + u64::from(u8::from(refusal)),
    }
}
