// Step 5 of a stage: the tables of a join's two blocks, at the front of what is lent on, and what
// the blocks' functions come to.
#![tactic(auto)]

ghost use Rattle.std.specs.Prelude.{◌+◌, ◌*◌, ◌≤◌, ◌≡◌};
ghost use Rattle.rules.specs.Cell.{cells};
ghost use Rattle.rules.specs.Join.{exchange_for};
ghost use Rattle.tables.specs.Part.{stage_at};
ghost use Rattle.stage_blocks.specs.Blocks.{Source, LimitsRoom, LimitsLaid, FirstRoom, FirstLaid, SecondRoom, SecondLaid, JoinedRoom, JoinedLaid};

use places::sets;
use rules::{Gate, PLACES};
use stage_drops::Left;
use tables::fill;

// Two tables over the places ks, moved to the places b: a stage's limits, at 8 × c.
fn lay(w: &mut [u8], ks: [u8; PLACES], b: [u8; PLACES], n: usize, low: usize, high: usize, c: usize)
    requires { LimitsRoom w.old ks b c × (n ≡ cells b) × (low + cells ks ≤ 8 * c) × (high + cells ks ≤ 8 * c) }
    ensures { LimitsLaid ks b (stage_at ks w.old low high).limits c w.old w.new }
{
    moves::moved_both(w, ks, b, n, low, high, 8 * c);
}

// The same, the limits being exchanged for min: parts 3 and 7 are then lost.
fn lay_limits(
    w: &mut [u8],
    gate: Gate,
    m: u8,
    ks: [u8; PLACES],
    b: [u8; PLACES],
    n: usize,
    low: usize,
    high: usize,
    c: usize,
)
    requires { LimitsRoom w.old ks b c × (n ≡ cells b) × (1 ≤ m) × Source w.old low (cells ks) m c × Source w.old high (cells ks) m c }
    ensures { LimitsLaid ks b (exchange_for gate ks m (stage_at ks w.old low high).limits) c w.old w.new }
{
    match gate {
        Gate::Max => lay(w, ks, b, n, low, high, c),
        Gate::Min => {
            fill::complement(w, m - 1, high, 3 * c, c);
            fill::complement(w, m - 1, low, 7 * c, c);
            lay(w, ks, b, n, 3 * c, 7 * c, c);
        }
    }
}

// The first block's table, from what was prepared for it: its places, and how many cells these have. Parts 0, 1, 4
// and 5 stay.
pub fn first_table(w: &mut [u8], gate: Gate, m: u8, ks: [u8; PLACES], t: u8, c: usize) -> Left
    requires { FirstRoom w.old ks m t c }
    ensures { FirstLaid gate m ks t c w.old result.places w.new × (result.cells ≡ cells result.places) }
{
    let b = sets::without(ks, t);
    let n = places::cell_count(b);
    join_tables::greatest_above(w, ks, t, 0, c, 6 * c, c);
    lay_limits(w, gate, m, ks, b, n, 6 * c, 2 * c, c);
    Left {
        places: b,
        cells: n,
    }
}

// The second block's table, given the first block's function at 8 × c, over the places a. Parts 0, 4 and 5 stay.
pub fn second_table(
    w: &mut [u8],
    gate: Gate,
    m: u8,
    ks: [u8; PLACES],
    a: [u8; PLACES],
    s: u8,
    c: usize,
) -> Left
    requires { SecondRoom w.old ks a m s c }
    ensures { SecondLaid gate m ks a s c w.old result.places w.new × (result.cells ≡ cells result.places) }
{
    let b = sets::without(ks, s);
    let n = places::cell_count(b);
    moves::moved(w, a, ks, c, 8 * c, 6 * c);
    join_tables::exchange_block(w, gate, m, 6 * c, 7 * c, c);
    join_tables::greatest_above(w, ks, s, 0, 7 * c, 2 * c, c);
    lay_limits(w, gate, m, ks, b, n, 2 * c, c, c);
    Left {
        places: b,
        cells: n,
    }
}

// The join's function, from the first block's in part 6 and the second's at 8 × c, over the places b. Parts 4
// and 5 stay.
pub fn joined(w: &mut [u8], gate: Gate, ks: [u8; PLACES], b: [u8; PLACES], c: usize)
    requires { JoinedRoom w.old ks b c }
    ensures { JoinedLaid gate ks b c w.old w.new }
{
    moves::moved(w, b, ks, c, 8 * c, 7 * c);
    fill::combine(w, gate, 6 * c, 7 * c, 0, c);
}
