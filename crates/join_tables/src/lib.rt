// Joins on parts of one work buffer. Every part has n bytes, one for each cell of the places ks.
// A join of either gate is made as a max join: `open_limits` turns the limits before, `exchange` after.
#![tactic(auto)]

ghost use Rattle.std.specs.Prelude.{ℕ, ◌+◌, ◌*◌, ◌≤◌, ◌≡◌, List, length};
ghost use Rattle.rules.specs.Bytes.{at, tabulate};
ghost use Rattle.rules.specs.Cell.{cells, over, greatest_over, least_over};
ghost use Rattle.rules.specs.Limits.{limits_of};
ghost use Rattle.rules.specs.Join.{above, exchange_for};
ghost use Rattle.tables.specs.Line.{best};
ghost use Rattle.tables.specs.Part.{part, Laid, Two, Shaped};
ghost use Rattle.join_tables.specs.Parts.{turned, Below, Holds, Exchanging, Exchanged, Work, Lent, Opened, Existing, First, Second, Blinded, Judged};

use rules::{Gate, PLACES};
use tables::{fill, tests};

// One table as the max join wants it.
pub fn exchange_block(w: &mut [u8], gate: Gate, m: u8, from: usize, to: usize, n: usize)
    requires { (1 ≤ m) × Two w.old from to n × Below w.old from n m }
    ensures { Laid w.old to (turned gate n m (part w.old from n)) n w.new }
{
    match gate {
        Gate::Max => fill::copy(w, from, to, n),
        Gate::Min => fill::complement(w, m - 1, from, to, n),
    }
}

// Limits as the max join wants them, and back: the lower ones at `from`, then the upper ones, to the
// two parts at `to`.
fn exchange(w: &mut [u8], gate: Gate, m: u8, from: usize, to: usize, n: usize)
    requires { Exchanging w.old m from to n }
    ensures { Exchanged gate w.old m from to n w.new }
{
    match gate {
        Gate::Max => fill::copy(w, from, to, 2 * n),
        Gate::Min => {
            fill::complement(w, m - 1, from + n, to, n);
            fill::complement(w, m - 1, from, to + n, n);
        }
    }
}

// The extreme over a set of the table at `to`, in its place.
pub fn over_part(w: &mut [u8], greatest: bool, ks: [u8; PLACES], set: u8, to: usize, n: usize)
    requires { Shaped ks × (n ≡ cells ks) × (to + n ≤ length w.old) }
    ensures { Laid w.old to (over (best greatest) ks set (part w.old to n)) n w.new }
{
    extremes::over_set(&[], &mut w[to..to + n], greatest, ks, set, n, 0, 0);
}

// The extreme over a set of a lent table, at `to`.
fn over_lent(
    w: &mut [u8],
    table: &[u8],
    greatest: bool,
    ks: [u8; PLACES],
    set: u8,
    to: usize,
    n: usize,
)
    requires { Shaped ks × (n ≡ cells ks) × (n ≤ length table.now) × (to + n ≤ length w.old) }
    ensures { Laid w.old to (over (best greatest) ks set table.now) n w.new }
{
    extremes::over_set(&table[0..n], &mut w[to..to + n], greatest, ks, set, n, 0, 0);
}

// The greatest, over a set, of the low grades that are above the high table's.
pub fn greatest_above(
    w: &mut [u8],
    ks: [u8; PLACES],
    set: u8,
    low: usize,
    high: usize,
    to: usize,
    n: usize,
)
    requires { Shaped ks × (n ≡ cells ks) × Two w.old low to n × Two w.old high to n }
    ensures { Laid w.old to (greatest_over ks set (tabulate n (λ c. above (at (part w.old low n) c) (at (part w.old high n) c)))) n w.new }
{
    fill::keep_above(w, low, high, to, n);
    over_part(w, true, ks, set, to, n);
}

// Of lent limits, the lower ones as the max join wants them, at part 0.
fn load_lower(w: &mut [u8], lower: &[u8], upper: &[u8], gate: Gate, m: u8, n: usize)
    requires { Lent lower.now upper.now m n × (n ≤ length w.old) }
    ensures { (ks : List ℕ) → n ≡ cells ks → Laid w.old 0 (exchange_for gate ks m (limits_of lower.now upper.now)).lower n w.new }
{
    match gate {
        Gate::Max => fill::load(w, lower, 0, n),
        Gate::Min => fill::load_complement(w, upper, m - 1, 0, n),
    }
}

// The least, over a set, of the upper ones, at `to`: the upper limits of the block that is blind to the set.
fn least_upper(
    w: &mut [u8],
    lower: &[u8],
    upper: &[u8],
    gate: Gate,
    ks: [u8; PLACES],
    m: u8,
    set: u8,
    to: usize,
    n: usize,
)
    requires { Shaped ks × (n ≡ cells ks) × Lent lower.now upper.now m n × (to + n ≤ length w.old) }
    ensures { Laid w.old to (least_over ks set (exchange_for gate ks m (limits_of lower.now upper.now)).upper) n w.new }
{
    match gate {
        Gate::Max => over_lent(w, upper, false, ks, set, to, n),
        Gate::Min => {
            fill::load_complement(w, lower, m - 1, to, n);
            over_part(w, false, ks, set, to, n);
        }
    }
}

// Opens the join under lent limits: part 0 becomes the lower ones, part 2 the first block's upper limits, part 3
// the second's.
pub fn open_limits(
    w: &mut [u8],
    lower: &[u8],
    upper: &[u8],
    gate: Gate,
    ks: [u8; PLACES],
    m: u8,
    s: u8,
    t: u8,
    n: usize,
)
    requires { Work w.old ks n × Lent lower.now upper.now m n }
    ensures { Opened gate ks m s t (limits_of lower.now upper.now) n w.new }
{
    load_lower(w, lower, upper, gate, m, n);
    least_upper(w, lower, upper, gate, ks, m, t, 2 * n, n);
    least_upper(w, lower, upper, gate, ks, m, s, 3 * n, n);
}

// Whether an open join exists. It stops at the first cell that refuses.
pub fn exists(w: &[u8], n: usize) -> bool
    requires { 6 * n ≤ length w.now }
    ensures { Existing n w.now result }
{
    tests::within_either(w, 0, 2 * n, 3 * n, n)
}

// Of an open join: parts 4 and 5 become the first block's limits, part 1 is lost.
pub fn first_limits(w: &mut [u8], gate: Gate, ks: [u8; PLACES], m: u8, t: u8, n: usize)
    requires { Work w.old ks n × (1 ≤ m) × Below w.old 0 n m × Below w.old (2 * n) n m }
    ensures { First gate ks m t n w.old w.new }
{
    greatest_above(w, ks, t, 0, 3 * n, n, n);
    exchange(w, gate, m, n, 4 * n, n);
}

// Of an open join, with the first block's grades in part 2: parts 4 and 5 become the second block's
// limits, parts 1 and 2 are lost.
pub fn second_limits(w: &mut [u8], gate: Gate, ks: [u8; PLACES], m: u8, s: u8, n: usize)
    requires { Work w.old ks n × (1 ≤ m) × Below w.old (2 * n) n m × Below w.old 0 n m × Below w.old (3 * n) n m }
    ensures { Second gate ks m s n w.old w.new }
{
    exchange_block(w, gate, m, 2 * n, n, n);
    greatest_above(w, ks, s, 0, n, 2 * n, n);
    exchange(w, gate, m, 2 * n, 4 * n, n);
}

// Whether a lent table, which stands at `from` too, does not depend on a set: then it is its own greatest
// over the set, which is made at `to`.
fn blind(
    w: &mut [u8],
    g: &[u8],
    ks: [u8; PLACES],
    set: u8,
    from: usize,
    to: usize,
    n: usize,
) -> bool
    requires { Shaped ks × (n ≡ cells ks) × Two w.old from to n × (n ≤ length g.now) × Holds w.old from g.now n }
    ensures { Blinded ks set to n g.now w.old result w.new }
{
    over_lent(w, g, true, ks, set, to, n);
    tests::fits(w, to, from, n)
}

// Whether the first block g, which part 2 holds too, is within its limits, in parts 4 and 5, and does not depend
// on t. Part 1 is lost.
pub fn block_sound(w: &mut [u8], g: &[u8], ks: [u8; PLACES], t: u8, n: usize) -> bool
    requires { Work w.old ks n × (n ≤ length g.now) × Holds w.old (2 * n) g.now n }
    ensures { Judged ks t n g.now w.old result w.new }
{
    tests::fits(w, 4 * n, 2 * n, n)
        && tests::fits(w, 2 * n, 5 * n, n)
        && blind(w, g, ks, t, 2 * n, n, n)
}
