// Two sets that grow. The table at a holds the least upper grades over t, the table at b those over
// s, at every step.
ghost use Rattle.std.specs.Prelude.{◌+◌, ◌*◌, ◌≤◌, ◌<◌, ◌≡◌, false, length};
ghost use Rattle.rules.specs.Bytes.{numbers_from};
ghost use Rattle.rules.specs.Cell.{cells, present, has};
ghost use Rattle.tables.specs.Line.{Counts};
ghost use Rattle.tables.specs.Part.{Shaped};
ghost use Rattle.rules.specs.Stage.{add_condition, grow};
ghost use Rattle.grouping.specs.Growing.{sets_of, Space, Started, Tried, Grows, in_order};

use crate::{Sets, joins};
use places::sets;
use rules::PLACES;

// The tables of the sets of i alone and of j alone, from the upper grades at `high`: those over j behind
// them, then those over i in their place. The grades stand in the part that is lent, so none are lent beside it.
pub fn start_sets(w: &mut [u8], ks: [u8; PLACES], i: usize, j: usize, n: usize, high: usize)
    requires { (i < 8) × (j < 8) × (n ≡ cells ks) × Shaped ks × (high + 2 * n ≤ length w.old) }
    ensures { Started w.old ks i j high (high + n) high w.new }
{
    extremes::over_one(&[], &mut w[high..high + 2 * n], false, ks, j, n, 0, n);
    extremes::over_one(&[], &mut w[high..high + n], false, ks, i, n, 0, 0);
}

// Adds condition i to the set whose table is at `grow`, if that may be: whether it was.
fn try_add(
    w: &mut [u8],
    ks: [u8; PLACES],
    i: usize,
    n: usize,
    step: usize,
    low: usize,
    keep: usize,
    grow: usize,
) -> bool
    requires { Counts ks i n step × Space w.old ks low keep grow }
    ensures { Tried w.old ks i low keep grow result w.new }
{
    let joins = joins::may_add(w, ks, i, n, step, low, keep, grow);
    if joins {
        extremes::over_one(&[], &mut w[grow..grow + n], false, ks, i, n, 0, 0);
    }
    joins
}

// Adds condition i to s, failing that to t, failing that to neither.
fn add_in_order(
    w: &mut [u8],
    ks: [u8; PLACES],
    found: Sets,
    i: usize,
    n: usize,
    step: usize,
    low: usize,
    a: usize,
    b: usize,
) -> Sets
    requires { Counts ks i n step × Space w.old ks low a b × (has found.s i ≡ false) × (has found.t i ≡ false) }
    ensures { Grows w.old ks low a b found.s found.t (in_order ks i found.s found.t) result.s result.t w.new }
{
    if try_add(w, ks, i, n, step, low, a, b) {
        return Sets {
            s: sets::insert(found.s, i),
            ..found
        };
    }
    if try_add(w, ks, i, n, step, low, b, a) {
        return Sets {
            t: sets::insert(found.t, i),
            ..found
        };
    }
    found
}

// Adds condition i, unless it is not there or in a set already: first to the set with fewer members,
// s when equal.
pub fn add_condition(
    w: &mut [u8],
    ks: [u8; PLACES],
    found: Sets,
    i: usize,
    n: usize,
    step: usize,
    low: usize,
    a: usize,
    b: usize,
) -> Sets
    requires { Counts ks i n step × Space w.old ks low a b }
    ensures { Grows w.old ks low a b found.s found.t (λ js. add_condition (present ks) js i (sets_of found)) result.s result.t w.new }
{
    if ks[i] < 2 || found.has(i) {
        return found;
    }
    if sets::count(found.s) <= sets::count(found.t) {
        return add_in_order(w, ks, found, i, n, step, low, a, b);
    }
    add_in_order(w, ks, found.turned(), i, n, step, low, b, a).turned()
}

// Adds each condition in turn, for tables of n cells.
pub fn grow(
    w: &mut [u8],
    ks: [u8; PLACES],
    n: usize,
    found: Sets,
    low: usize,
    a: usize,
    b: usize,
) -> Sets
    requires { (n ≡ cells ks) × Space w.old ks low a b }
    ensures { Grows w.old ks low a b found.s found.t (λ js. grow (present ks) js (numbers_from 0 8) (sets_of found)) result.s result.t w.new }
{
    let mut grown = found;
    let mut step: usize = 1;
    for (i, card) in ks.iter().enumerate() {
        grown = add_condition(w, ks, grown, i, n, step, low, a, b);
        step *= *card as usize;
    }
    grown
}
