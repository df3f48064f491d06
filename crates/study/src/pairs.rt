// Two lists of sums, place by place.
ghost use Rattle.std.specs.Prelude.{◌≡◌, ℕ, ◌<◌, pos, length, get_or};

use std::array::from_fn;

// What an operation makes of the two sums at each place.
pub(crate) fn each<F: Fn(i64, i64) -> i64>(op: F, a: &[i64; 80], b: &[i64; 80]) -> [i64; 80]
    requires { (k : ℕ) → k < 80 → F.pre op (get_or a.now k (pos 0)) (get_or b.now k (pos 0)) }
    ensures result_len { length result ≡ 80 }
    ensures by_place { (k : ℕ) → k < 80 → F.post op (get_or a.now k (pos 0)) (get_or b.now k (pos 0)) (get_or result k (pos 0)) }
{
    from_fn(|place| op(a[place], b[place]))
}
