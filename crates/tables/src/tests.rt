// Tests of every cell, or of every byte. Each stops at the first that fails.
ghost use Rattle.std.specs.Prelude.{◌+◌, ◌≤◌, max, ◌≡◌, leb, length};
ghost use Rattle.rules.specs.Bytes.{at, all, zeros};
ghost use Rattle.tables.specs.Part.{part};

// Whether no cell of the low table is above the high table's.
pub fn fits(w: &[u8], low: usize, high: usize, n: usize) -> bool
    requires { (low + n ≤ length w.now) × (high + n ≤ length w.now) }
    ensures { result ≡ all n (λ c. leb (at (part w.now low n) c) (at (part w.now high n) c)) }
{
    w[low..low + n]
        .iter()
        .zip(&w[high..high + n])
        .all(|(l, h)| l <= h)
}

// Whether no cell of the low table is above both others.
pub fn within_either(w: &[u8], low: usize, a: usize, b: usize, n: usize) -> bool
    requires { (low + n ≤ length w.now) × (a + n ≤ length w.now) × (b + n ≤ length w.now) }
    ensures { result ≡ all n (λ c. leb (at (part w.now low n) c) (max (at (part w.now a n) c) (at (part w.now b n) c))) }
{
    w[low..low + n]
        .iter()
        .zip(&w[a..a + n])
        .zip(&w[b..b + n])
        .all(|((l, x), y)| *l <= (*x).max(*y))
}

// Whether the bytes from a up to, but not with, b are zero.
pub fn zero_between(r: &[u8], a: usize, b: usize) -> bool
    requires { b ≤ length r.now }
    ensures { result ≡ zeros r.now a b }
{
    a >= b || r[a..b].iter().all(|byte| *byte == 0)
}
