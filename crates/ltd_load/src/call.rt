// The words of the call: SEED, SIZE, FIRST and LAST. The first that is wrong gets a line on standard error that says what it must be.
ghost use Rattle.std.specs.Prelude.{◌≤◌, length};
ghost use Rattle.ltd_load.specs.Asked.{SeedAsked, SizeAsked, LastAsked, SoundAsked};

use crate::Asked;
use crate::words::{date_of_word, number_of_word};
use basics::limits::MOST_CLAIMS;
use calendar::Date;
use std::env::{Env, FillError};

// A byte as it is shown: a line end or another control character would break the line.
fn shown(byte: u8) -> u8 {
    if byte.is_ascii_control() { b'?' } else { byte }
}

fn make_shown(word: &mut [u8]) {
    for byte in word {
        *byte = shown(*byte);
    }
}

// The words, and where what is wrong with them is said.
#[derive_where(Clone, Copy)]
pub(crate) struct Call<'a, A, E> {
    pub(crate) args: &'a A,
    pub(crate) err: &'a E,
}

impl<A: Env, E: Print> Call<'_, A, E> {
    // Says a text, as far as it can be written.
    fn say(self, text: &[u8]) {
        let _ = self.err.write_all(text);
    }

    // Puts the word at a place at the start of a list, and answers its length: 0 where it is missing or longer than the list.
    fn word_at(self, place: usize, word: &mut [u8]) -> usize
        ensures { result ≤ length word.new }
    {
        self.args.arg(place, word).unwrap_or(0)
    }

    // Whether there is a word at a place.
    fn is_there(self, place: usize) -> bool {
        let mut word = [0u8; 64];
        !matches!(self.args.arg(place, &mut word), Err(FillError::NotPresent))
    }

    fn say_shown(self, word: &mut [u8]) {
        make_shown(word);
        self.say(word);
    }

    // Says the word at a place in quotes, up to 64 bytes of it.
    fn say_quoted(self, place: usize) {
        let mut word = [0u8; 64];
        self.say(b"'");
        match self.args.arg(place, &mut word) {
            Ok(count) => self.say_shown(&mut word[..count]),
            Err(FillError::TooLong) => {
                self.say_shown(&mut word);
                self.say(b"..");
            }
            Err(FillError::NotPresent) => {}
        }
        self.say(b"'");
    }

    // Says that the word at a place, with a name, is missing or wrong.
    fn say_wrong(self, place: usize, name: &[u8], rule: &[u8]) {
        self.say(b"ltd_load: ");
        self.say(name);
        if self.is_there(place) {
            self.say(b" is ");
            self.say_quoted(place);
        } else {
            self.say(b" is missing");
        }
        self.say(b": it must be ");
        self.say(rule);
        self.say(b"\n");
    }

    // What the word at a place says, read by a function.
    fn read_at<T, F: Fn(&[u8]) -> Option<T>>(self, place: usize, read: F) -> Option<T>
        requires { F.IsAlwaysCallable read }
    {
        let mut word = [0u8; 64];
        let count = self.word_at(place, &mut word);
        read(&word[..count])
    }

    fn seed(self) -> Option<u32>
        ensures { SeedAsked result }
    {
        match self.read_at(1, number_of_word) {
            Some(seed @ 1..=2147483646) => Some(seed),
            _ => {
                self.say_wrong(1, b"SEED", b"a number from 1 to 2147483646");
                None
            }
        }
    }

    fn size(self) -> Option<u32>
        ensures { SizeAsked result }
    {
        match self.read_at(2, number_of_word) {
            Some(size) if size <= MOST_CLAIMS => Some(size),
            _ => {
                self.say_wrong(2, b"SIZE", b"a number from 0 to 500000");
                None
            }
        }
    }

    fn first(self) -> Option<Date> {
        let first = self.read_at(3, date_of_word);
        if first.is_none() {
            self.say_wrong(
                3,
                b"FIRST",
                b"a date from 1950-01-01 to 2099-12-31, written as 2010-01-01",
            );
        }
        first
    }

    // LAST is a date from FIRST on.
    fn last(self, first: Date) -> Option<Date>
        ensures { LastAsked first result }
    {
        match self.read_at(4, date_of_word) {
            Some(date) if claim_months::windows::window(first, date).is_ok() => Some(date),
            _ => {
                self.say_wrong(
                    4,
                    b"LAST",
                    b"a date on or after FIRST, up to 2099-12-31, written as 2019-12-31",
                );
                None
            }
        }
    }

    fn no_more(self) -> bool {
        if !self.is_there(5) {
            return true;
        }
        self.say(b"ltd_load: ");
        self.say_quoted(5);
        self.say(b" is one word too many: only SEED, SIZE, FIRST and LAST are asked for\n");
        false
    }

    // The load and the window asked for, if every word is right; a wrong one is said.
    pub(crate) fn asked(self) -> Option<Asked>
        ensures { SoundAsked result }
    {
        let seed = self.seed()?;
        let size = self.size()?;
        let first = self.first()?;
        let last = self.last(first)?;
        if !self.no_more() {
            return None;
        }
        Some(Asked {
            seed,
            size,
            first,
            last,
        })
    }
}
