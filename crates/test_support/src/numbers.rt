// Signed numbers as 64 bits, in which the tests add and print them: a sum may be past either end.
ghost use Rattle.std.specs.Prelude.{◌≡◌};
ghost use Rattle.test_support.specs.Bits.{bits_of, size_of};

// A signed number's 64 bits: a negative one as 2^64 more.
pub fn bits(x: i64) -> u64
    ensures { result ≡ bits_of x }
{
    x.cast_unsigned()
}

// The same of a number of 32 bits.
pub fn bits_of_short(x: i32) -> u64
    ensures { result ≡ bits_of x }
{
    bits(i64::from(x))
}

// The size of a signed number, of which the bits are given.
pub fn size_of_bits(bits: u64) -> u64
    ensures { result ≡ size_of bits }
{
    bits.cast_signed().unsigned_abs()
}
