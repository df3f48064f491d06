// What a word says: a number in decimal digits, or a date as 2010-01-01.
ghost use Rattle.std.specs.Prelude.{◌≡◌};
ghost use Rattle.ltd_load.specs.Words.{number_of_word, date_of_parts, date_of_word};

use calendar::Date;

// A word's number: digits and nothing else, up to 2^32 - 1. Kept: `parse` takes a plus sign too.
pub fn number_of_word(word: &[u8]) -> Option<u32>
    ensures { result ≡ number_of_word word.now }
{
    if word.is_empty() {
        return None;
    }
    let mut number: u32 = 0;
    for byte in word {
        if !byte.is_ascii_digit() {
            return None;
        }
        number = number
            .checked_mul(10)?
            .checked_add(u32::from(*byte - b'0'))?;
    }
    Some(number)
}

// The date of a year, a month and a day.
fn date_of_parts(year: u32, month: u32, day: u32) -> Option<Date>
    ensures { result ≡ date_of_parts year month day }
{
    let year = u16::try_from(year).ok()?;
    let month = u8::try_from(month).ok()?;
    let day = u8::try_from(day).ok()?;
    let date = Date { year, month, day };
    calendar::is_date(date).then_some(date)
}

// A word's date.
pub fn date_of_word(word: &[u8]) -> Option<Date>
    ensures { result ≡ date_of_word word.now }
{
    if word.len() != 10 || word[4] != b'-' || word[7] != b'-' {
        return None;
    }
    let year = number_of_word(&word[0..4])?;
    let month = number_of_word(&word[5..7])?;
    let day = number_of_word(&word[8..10])?;
    date_of_parts(year, month, day)
}
