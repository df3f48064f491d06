// Words and numbers on standard output. No contract says what is written there: the programs' output is compared with what is stored.
use crate::numbers::size_of_bits;
use std::io;

pub fn put(rt: &impl Print, text: &[u8]) -> io::Result<()> {
    rt.write_all(text)
}

pub fn put_number(rt: &impl Print, n: u64) -> io::Result<()> {
    rt.print(n)
}

// A word and a number.
pub fn put_named(rt: &impl Print, word: &[u8], n: u64) -> io::Result<()> {
    put(rt, word)?;
    put_number(rt, n)
}

// A space and a number.
pub fn put_next(rt: &impl Print, n: u64) -> io::Result<()> {
    put_named(rt, b" ", n)
}

// Whether a comparison came out as it should.
pub fn put_yes(rt: &impl Print, yes: bool) -> io::Result<()> {
    put(rt, if yes { b" yes" } else { b" NO" })
}

// A signed number, of which the bits are given.
// Kept: the size is apart from its sign, since its contract is proved, and no contract says what is printed.
pub fn put_signed(rt: &impl Print, bits: u64) -> io::Result<()> {
    if bits >= 9223372036854775808 {
        put(rt, b"-")?;
    }
    put_number(rt, size_of_bits(bits))
}

// A space and a signed number.
pub fn put_next_signed(rt: &impl Print, bits: u64) -> io::Result<()> {
    put(rt, b" ")?;
    put_signed(rt, bits)
}

// A line for each eight numbers: the word, the group's number, and the eight.
pub fn put_groups(rt: &impl Print, word: &[u8], list: &[u64]) -> io::Result<()> {
    let (groups, _) = list.as_chunks::<8>();
    for (number, group) in (1..).zip(groups) {
        put_named(rt, word, number)?;
        for figure in group {
            put_next_signed(rt, *figure)?;
        }
        put(rt, b"\n")?;
    }
    Ok(())
}
