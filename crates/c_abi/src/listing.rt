// The call for a claim's month records, and a date from its number.
ghost use Rattle.std.specs.Prelude.{◌≡◌, length};
ghost use Rattle.claim_file.specs.BlockAnswers.{record_in};
ghost use Rattle.c_abi.specs.Abi.{date_in};
ghost use Rattle.c_abi.specs.RecordCalls.{listing_answer, listing_after};

use crate::answers::{NO_FORM_NUMBER, number_answered};
use calendar::Date;

// A date from its number. Kept: `From` of a date of `calendar` can't stand in this crate.
pub(crate) fn date_in(number: u32) -> Date
    ensures { result ≡ date_in number }
{
    Date {
        year: (number % 65536) as u16,
        month: (number / 65536 % 256) as u8,
        day: (number / 16777216) as u8,
    }
}

// The month records of a claim, or 2^32 + the number refused.
#[unsafe(no_mangle)]
pub extern "C" fn ltd_listing(first: u32, last: u32, claim: &[u8], list: &mut [i32]) -> u64
    ensures value { result ≡ listing_answer (date_in first) (date_in last) (record_in claim.now 0) (length list.old) }
    ensures list_after { list.new ≡ listing_after (date_in first) (date_in last) (record_in claim.now 0) list.old }
{
    let Some(read) = claim_file::record::read_record(claim, 0) else {
        return NO_FORM_NUMBER;
    };
    number_answered(claim_months::listing::list_months(date_in(first), date_in(last), read, list))
}
