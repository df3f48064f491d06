// Dates as the tests write them.
ghost use Rattle.std.specs.Prelude.{◌≡◌};
ghost use Rattle.test_support.specs.Written.{written};

use calendar::Date;

// A date written as digits, the year before two of the month and two of the day; 0 is a missing date. It need not be a date.
pub fn date(digits: u32) -> Date
    ensures { result ≡ written digits }
{
    Date {
        year: (digits / 10000 % 65536) as u16,
        month: (digits / 100 % 100) as u8,
        day: (digits % 100) as u8,
    }
}
