// Sums of 64-bit numbers modulo 2⁶⁴.
ghost use Rattle.std.specs.Prelude.{◌≡◌, ◌<◌, length, pos, ◌+ℤ◌, slice_index_or, slice_set};
ghost use Rattle.by_duration.specs.Wrapped.{as64};

// Adds an amount at a place.
pub(crate) fn raise(rows: &mut [i64], place: usize, amount: i64)
    requires { place < length rows.old }
    ensures { rows.new ≡ slice_set rows.old place (as64 (slice_index_or rows.old place (pos 0) +ℤ amount)) }
{
    rows[place] = rows[place].wrapping_add(amount);
}
