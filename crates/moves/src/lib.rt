// Tables moved to other places, and the cells where a condition has one value.
#![tactic(auto)]

ghost use Rattle.std.specs.Prelude.{◌+◌, ◌*◌, ◌≤◌, ◌<◌, ◌≡◌, ◌++◌, ◌↔◌, IsTrue};
ghost use Rattle.rules.specs.Bytes.{pick, at, tabulate};
ghost use Rattle.rules.specs.Cell.{cells, step, moved};
ghost use Rattle.tables.specs.Part.{part, Laid, Apart, Shaped};
ghost use Rattle.tables.specs.Line.{Spread};
ghost use Rattle.moves.specs.Move.{remap_from, EndsRun, Runs, together, room, Moving};
ghost use Rattle.moves.specs.Row.{in_row, Rows};

use rules::PLACES;
use tables::fill;

// A table over the places b is made from one over a in runs. A run is the cells that differ in the lowest places
// only: how many places those are, the cells that they have in b, and those that they have in a.
#[derive(Clone, Copy)]
struct Run {
    places: usize,
    cells: usize,
    first: usize,
}

// Whether a place with k values in b and l in a ends a run: with ALONG where the two differ, without where it has a
// condition in both.
fn ends_run<const ALONG: bool>(k: u8, l: u8) -> bool
    ensures { IsTrue result ↔ EndsRun ALONG k l }
{
    if ALONG { k != l } else { 1 < k && 1 < l }
}

// The lowest places that make a run. With ALONG they are equal, and its cells lie beside each other in a too; without
// none of them has a condition in both, and all its cells have the grade of one cell of a.
fn run_of<const ALONG: bool>(a: [u8; PLACES], b: [u8; PLACES]) -> Run
    requires { Shaped a × Shaped b }
    ensures { Runs a b ALONG result }
{
    let mut run = Run {
        places: 0,
        cells: 1,
        first: 1,
    };
    for (k, l) in b.iter().zip(&a) {
        if ends_run::<ALONG>(*k, *l) {
            return run;
        }
        run = Run {
            places: run.places + 1,
            cells: run.cells * usize::from(*k),
            first: run.first * usize::from(*l),
        };
    }
    run
}

// From cell d of a, where run r of b begins, to the one where the next run does. Only the conditions whose values
// change are looked at, and a place of b that has none is passed by, since a division is dear.
fn next(a: [u8; PLACES], b: [u8; PLACES], run: Run, r: usize, d: usize) -> usize
    requires { Shaped a × Shaped b × (run.places ≤ 8) × (run.first ≡ step a run.places) × (d ≡ run.first * remap_from run.places b a r) }
    ensures { result ≡ run.first * remap_from run.places b a (r + 1) }
{
    let mut rest = r;
    let mut at = d;
    let mut step = run.first;
    for (k, l) in b[run.places..].iter().zip(&a[run.places..]) {
        let k = usize::from(*k);
        let l = usize::from(*l);
        if 1 < k {
            let value = rest % k;
            at -= value % l * step;
            if value + 1 < k {
                return at + (value + 1) % l * step;
            }
            rest /= k;
        }
        step *= l;
    }
    at
}

// One run: the bytes from `from` on, or the one there for all of it.
fn lay_run<const ALONG: bool>(w: &mut [u8], from: usize, to: usize, len: usize)
    requires { Apart w.old from (pick ALONG len 1) to len }
    ensures { Laid w.old to (tabulate len (λ o. at w.old (from + pick ALONG o 0))) len w.new }
{
    if ALONG {
        fill::copy(w, from, to, len);
    } else {
        let grade = w[from];
        fill::fill(w, grade, to, len);
    }
}

// Run after run, with no division for a cell. Where a run begins is found once, for one table or for two.
fn moved_runs<const BOTH: bool, const ALONG: bool>(
    w: &mut [u8],
    a: [u8; PLACES],
    b: [u8; PLACES],
    n: usize,
    low: usize,
    high: usize,
    to: usize,
    run: Run,
)
    requires { Moving w.old a b n low high to BOTH × Runs a b ALONG run }
    ensures { Laid w.old to (together BOTH (moved a b (part w.old low (cells a))) (moved a b (part w.old high (cells a)))) (room BOTH (cells b)) w.new }
{
    let len = run.cells;
    let count = n / len;
    let mut d: usize = 0;
    // By number: it is an argument of `next`, and both offsets come from it.
    for r in 0..count {
        lay_run::<ALONG>(w, low + d, to + len * r, len);
        if BOTH {
            lay_run::<ALONG>(w, high + d, to + n + len * r, len);
        }
        d = next(a, b, run, r, d);
    }
}

// One table of n cells over the places b at `to`, or BOTH, one behind the other, from as many over a.
fn moved_tables<const BOTH: bool>(
    w: &mut [u8],
    a: [u8; PLACES],
    b: [u8; PLACES],
    n: usize,
    low: usize,
    high: usize,
    to: usize,
)
    requires { Moving w.old a b n low high to BOTH }
    ensures { Laid w.old to (together BOTH (moved a b (part w.old low (cells a))) (moved a b (part w.old high (cells a)))) (room BOTH (cells b)) w.new }
{
    let same = run_of::<true>(a, b);
    if 1 < same.cells {
        moved_runs::<BOTH, true>(w, a, b, n, low, high, to, same);
    } else {
        let other = run_of::<false>(a, b);
        moved_runs::<BOTH, false>(w, a, b, n, low, high, to, other);
    }
}

// A table of n cells over the places b, from one over a.
pub fn moved(w: &mut [u8], a: [u8; PLACES], b: [u8; PLACES], n: usize, from: usize, to: usize)
    requires { Shaped a × Shaped b × (n ≡ cells b) × Apart w.old from (cells a) to (cells b) }
    ensures { Laid w.old to (moved a b (part w.old from (cells a))) (cells b) w.new }
{
    moved_tables::<false>(w, a, b, n, from, from, to);
}

// Two tables of n cells over the places b, one behind the other at `to`, from two over a.
pub fn moved_both(
    w: &mut [u8],
    a: [u8; PLACES],
    b: [u8; PLACES],
    n: usize,
    low: usize,
    high: usize,
    to: usize,
)
    requires { Shaped a × Shaped b × (n ≡ cells b) × Apart w.old low (cells a) to (2 * cells b) × Apart w.old high (cells a) to (2 * cells b) }
    ensures { Laid w.old to (moved a b (part w.old low (cells a)) ++ moved a b (part w.old high (cells a))) (2 * cells b) w.new }
{
    moved_tables::<true>(w, a, b, n, low, high, to);
}

// The cells where the lowest condition, of cardinality `card`, is k. Here and in the two below one part of a buffer is
// read while another is written, which no two slices can lend: so the places are counted.
pub fn cofactor(w: &mut [u8], from: usize, to: usize, n: usize, card: usize, k: usize)
    requires { (k < card) × Apart w.old from (card * n) to n }
    ensures { Laid w.old to (tabulate n (λ c. at (part w.old from (card * n)) (k + card * c))) n w.new }
{
    for c in 0..n {
        w[to + c] = w[from + (k + card * c)];
    }
}

// The same cells set, from a table of them.
pub fn uncofactor(w: &mut [u8], from: usize, to: usize, n: usize, card: usize, k: usize)
    requires { (k < card) × Apart w.old from n to (card * n) }
    ensures { Spread w.old (to + k) card (at (part w.old from n)) n w.new }
{
    for c in 0..n {
        w[to + k + card * c] = w[from + c];
    }
}

// The cells where another condition is k, of this step and cardinality: row by row.
pub fn cofactor_rows(
    w: &mut [u8],
    from: usize,
    to: usize,
    n: usize,
    step: usize,
    card: usize,
    k: usize,
)
    requires { (k < card) × Rows step n × Apart w.old from (card * n) to n }
    ensures { Laid w.old to (tabulate n (λ c. at (part w.old from (card * n)) (in_row step card k c))) n w.new }
{
    let count = n / step;
    for r in 0..count {
        fill::copy(w, from + step * (k + card * r), to + step * r, step);
    }
}
