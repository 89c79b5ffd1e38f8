// Functions that fill one part of a buffer from others.
ghost use Rattle.std.specs.Prelude.{ℕ, ◌+◌, ◌-◌, ◌≤◌, ◌<◌, ◌≡◌, ◌++◌, ◌⊎◌, List, length, drop};
ghost use Rattle.rules.specs.Bytes.{at, tabulate};
ghost use Rattle.rules.specs.Join.{above};
ghost use Rattle.rules.specs.Network.{combine};
ghost use Rattle.tables.specs.Part.{part, Laid, Two};

use crate::grades;
use rules::Gate;

// The n bytes at `from` of a buffer that is split into `low`, n bytes that are to be written, and `high`.
pub fn beside<'a>(low: &'a [u8], high: &'a [u8], from: usize, n: usize) -> &'a [u8]
    requires { (from + n ≤ length low.now) ⊎ ((length low.now + n ≤ from) × (from ≤ length low.now + length high.now)) }
    ensures { (v : List ℕ) → length v ≡ n → result.now ≡ part (low.now ++ (v ++ high.now)) from n }
{
    if from < low.len() {
        return &low[from..from + n];
    }
    let start = from - low.len() - n;
    &high[start..start + n]
}

// What `copy_from_slice` does, by number: that calls `memmove`, which a panel's C library need not have.
pub fn put(cells: &mut [u8], grades: &[u8])
    requires { length cells.old ≡ length grades.now }
    ensures { cells.new ≡ grades.now }
{
    for (c, cell) in cells.iter_mut().enumerate() {
        *cell = grades[c];
    }
}

pub fn copy(w: &mut [u8], from: usize, to: usize, n: usize)
    requires { Two w.old from to n }
    ensures { Laid w.old to (part w.old from n) n w.new }
{
    let (low, rest) = w.split_at_mut(to);
    let (cells, high) = rest.split_at_mut(n);
    put(cells, beside(low, high, from, n));
}

// One grade at every cell.
pub fn fill(w: &mut [u8], grade: u8, to: usize, n: usize)
    requires { to + n ≤ length w.old }
    ensures { Laid w.old to (tabulate n (λ _. grade)) n w.new }
{
    w[to..to + n].fill(grade);
}

// A part from the front of another buffer.
pub fn load(w: &mut [u8], from: &[u8], to: usize, n: usize)
    requires { (n ≤ length from.now) × (to + n ≤ length w.old) }
    ensures { Laid w.old to (part from.now 0 n) n w.new }
{
    put(&mut w[to..to + n], &from[..n]);
}

// The front of another buffer from a part.
pub fn unload(w: &[u8], from: usize, to: &mut [u8], n: usize)
    requires { (from + n ≤ length w.now) × (n ≤ length to.old) }
    ensures { to.new ≡ part w.now from n ++ drop n to.old }
{
    put(&mut to[..n], &w[from..from + n]);
}

// What each grade lacks to the top grade. Its cell goes by number: a proof learns nothing of what is written through
// a `zip` of `iter_mut`.
fn lacks(cells: &mut [u8], grades: &[u8], top: u8)
    requires { (length cells.old ≡ length grades.now) × ((c : ℕ) → c < length grades.now → at grades.now c ≤ top) }
    ensures { (c : ℕ) → c < length grades.now → at cells.new c ≡ top - at grades.now c }
{
    for (c, cell) in cells.iter_mut().enumerate() {
        *cell = top - grades[c];
    }
}

pub fn complement(w: &mut [u8], top: u8, from: usize, to: usize, n: usize)
    requires { Two w.old from to n × ((c : ℕ) → c < n → at (part w.old from n) c ≤ top) }
    ensures { Laid w.old to (tabulate n (λ c. top - at (part w.old from n) c)) n w.new }
{
    let (low, rest) = w.split_at_mut(to);
    let (cells, high) = rest.split_at_mut(n);
    lacks(cells, beside(low, high, from, n), top);
}

// The same, from the front of another buffer.
pub fn load_complement(w: &mut [u8], from: &[u8], top: u8, to: usize, n: usize)
    requires { (n ≤ length from.now) × (to + n ≤ length w.old) × ((c : ℕ) → c < n → at from.now c ≤ top) }
    ensures { Laid w.old to (tabulate n (λ c. top - at from.now c)) n w.new }
{
    lacks(&mut w[to..to + n], &from[..n], top);
}

// Each of n cells from the grades at its place in two parts.
fn from_two<F: Fn(u8, u8) -> u8>(w: &mut [u8], grade: F, a: usize, b: usize, to: usize, n: usize)
    requires apart { Two w.old a to n × Two w.old b to n }
    requires total { F.IsAlwaysCallable grade }
    ensures { (f : ℕ → ℕ → ℕ) → ((x y r : ℕ) → F.post grade x y r → r ≡ f x y)
        → Laid w.old to (tabulate n (λ c. f (at (part w.old a n) c) (at (part w.old b n) c))) n w.new }
{
    let (low, rest) = w.split_at_mut(to);
    let (cells, high) = rest.split_at_mut(n);
    let first = beside(low, high, a, n);
    let second = beside(low, high, b, n);
    for (c, cell) in cells.iter_mut().enumerate() {
        *cell = grade(first[c], second[c]);
    }
}

fn if_above(grade: u8, limit: u8) -> u8
    ensures { result ≡ above grade limit }
{
    if limit < grade { grade } else { 0 }
}

// The low table's grades where they are above the high table's, else 0.
pub fn keep_above(w: &mut [u8], low: usize, high: usize, to: usize, n: usize)
    requires { Two w.old low to n × Two w.old high to n }
    ensures { Laid w.old to (tabulate n (λ c. above (at (part w.old low n) c) (at (part w.old high n) c))) n w.new }
{
    from_two(w, if_above, low, high, to, n);
}

// The gate of two tables.
pub fn combine(w: &mut [u8], gate: Gate, a: usize, b: usize, to: usize, n: usize)
    requires { Two w.old a to n × Two w.old b to n }
    ensures { Laid w.old to (tabulate n (λ c. combine gate (at (part w.old a n) c) (at (part w.old b n) c))) n w.new }
{
    let greater = grades::takes_greater(gate);
    from_two(w, |x, y| grades::extreme(greater, x, y), a, b, to, n);
}
