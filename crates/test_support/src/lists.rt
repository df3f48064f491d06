// Lists of numbers: compared, and rate tables of two cells filled.
ghost use Rattle.std.specs.Prelude.{◌≡◌, drop, replicate};
ghost use Rattle.test_support.specs.Lists.{same_list, places_unlike, all_are, step_to, filled_table};

// Whether two lists hold the same numbers.
pub fn same(a: &[u64], b: &[u64]) -> bool
    ensures { result ≡ same_list a.now b.now }
{
    a == b
}

// In how many places two lists differ, up to the shorter one's end.
pub fn differences(a: &[u8], b: &[u8]) -> u64
    ensures { result ≡ places_unlike a.now b.now }
{
    a.iter().zip(b).filter(|(x, y)| *x != *y).count() as u64
}

// Whether a list from a place on holds one number throughout.
pub fn throughout(list: &[i32], from: usize, number: i32) -> bool
    ensures { result ≡ all_are number (drop from list.now) }
{
    list.iter().skip(from).all(|x| *x == number)
}

// A table with its places from one to another filled: the first number, then each a step more, less the limit once it comes to it.
// Kept: by places, since the proof over `iter_mut` with `take` and `skip` didn't close: the invariant knows nothing of the table then.
pub fn filled(
    table: [u32; 1916],
    from: usize,
    to: usize,
    first: u32,
    step: u32,
    limit: u32,
) -> [u32; 1916]
    ensures { result ≡ filled_table table from to first step limit }
{
    let mut after = table;
    let mut number = first;
    for i in from..to.min(1916) {
        after[i] = number;
        number = stepped(number, step, limit);
    }
    after
}

fn stepped(number: u32, step: u32, limit: u32) -> u32
    ensures { result ≡ step_to step limit number }
{
    let next = number.wrapping_add(step);
    if next < limit {
        return next;
    }
    next - limit
}

// A table whose numbers count up from 1.
pub fn counting() -> [u32; 1916]
    ensures { result ≡ filled_table (replicate 1916 0) 0 1916 1 1 1000000 }
{
    filled([0; 1916], 0, 1916, 1, 1, 1000000)
}
