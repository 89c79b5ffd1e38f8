// Step 1 of a stage: conditions that can be dropped. The stage's limits are at the front of its buffer, the
// lower ones and right behind them the upper ones, a byte for each cell. A drop leaves them so.
#![tactic(auto)]

ghost use Rattle.std.specs.Prelude.{◌≡◌, true, cond, ◌⊎◌, ◌+◌, ◌*◌, ◌≤◌, ◌<◌, leb, length};
ghost use Rattle.rules.specs.Bytes.{at};
ghost use Rattle.rules.specs.Cell.{cells, singleton, without};
ghost use Rattle.rules.specs.Stage.{outside, merged, fits, drop_one, left};
ghost use Rattle.places.specs.Conditions.{IsLowest};
ghost use Rattle.tables.specs.Line.{Blocks, line_extremes, Counts};
ghost use Rattle.tables.specs.Part.{Laid};
ghost use Rattle.lines.specs.Along.{LineOn, least_on};
ghost use Rattle.stage_drops.specs.Working.{Room, front_stage, Turned};

use lines::{Along, walk};
use places::sets;
use places::sets::Condition;
use rows::packing;
use rules::PLACES;

// What a stage has left: its places, and how many cells these have.
#[derive(Clone, Copy)]
pub struct Left {
    pub places: [u8; PLACES],
    pub cells: usize,
}

// The extremes along the lines of the table of n cells that lies `from` bytes behind a, one for each line, at a. No
// other byte is lent for them than the table's and those before it.
fn pack(
    w: &mut [u8],
    greatest: bool,
    a: usize,
    from: usize,
    n: usize,
    count: usize,
    step: usize,
    card: usize,
)
    requires { Blocks w.old (a + from) count step card × (n ≡ step * card * count) × ((from ≡ 0) ⊎ (step ≤ from)) }
    ensures { Laid w.old a (line_extremes greatest w.old (a + from) step card count) (step * count) w.new }
{
    let size = from + n;
    packing::pack_blocks(&mut w[a..a + size], greatest, from, 0, count, step, card);
}

// The stage without condition i, under the limits that are left when it is dropped.
fn drop_condition(w: &mut [u8], ks: [u8; PLACES], i: usize, n: usize, step: usize)
    requires { Counts ks i n step × Room w.old ks n }
    ensures { Turned (λ x. outside (singleton i) x (merged i x)) ks w.old (without (singleton i) ks) w.new }
{
    let card = ks[i] as usize;
    let count = n / (step * card);
    let left = step * count;
    pack(w, true, 0, 0, n, count, step, card);
    pack(w, false, left, n - left, n, count, step, card);
}

// Whether the lower limit of cell c is no higher than each upper limit along the cell's line.
fn cell_fits(w: &[u8], high: usize, c: usize, on: Along) -> bool
    requires { (c < length w.now) × LineOn w.now high c on }
    ensures { result ≡ leb (at w.now c) (least_on w.now high c on) }
{
    !lines::below_at(w, high, c, on, w[c])
}

// Whether condition i can be dropped: no lower grade is above the least upper grade over it.
fn can_drop(w: &[u8], ks: [u8; PLACES], i: usize, n: usize, step: usize) -> bool
    requires { Counts ks i n step × Room w.now ks n }
    ensures { result ≡ fits ks (merged i (front_stage ks w.now)) }
{
    walk::all_cells(n, step, ks[i] as usize, |c, on| cell_fits(w, n, c, on))
}

// Drops condition i if that may be: whether it was.
fn drop_if_possible(w: &mut [u8], ks: [u8; PLACES], i: usize, n: usize, step: usize) -> bool
    requires { Counts ks i n step × Room w.old ks n }
    ensures { Turned (drop_one i) ks w.old (cond result (without (singleton i) ks) ks) w.new }
{
    let dropped = 1 < ks[i] && can_drop(w, ks, i, n, step);
    if dropped {
        drop_condition(w, ks, i, n, step);
    }
    dropped
}

// The same for the condition of a stage that has one, or none: whether it was dropped.
pub fn drop_last(w: &mut [u8], ks: [u8; PLACES], n: usize, low: Condition) -> bool
    requires { Room w.old ks n × IsLowest ks low × (low.values ≡ n) }
    ensures { Turned left ks w.old (cond result (without (singleton low.number) ks) ks) w.new × (result ≡ true → low.number < 8) }
{
    low.number < PLACES && drop_if_possible(w, ks, low.number, n, 1)
}

// The stage with its conditions left, under its limits from then on.
pub fn drop_all(w: &mut [u8], ks: [u8; PLACES], c: usize) -> Left
    requires { Room w.old ks c }
    ensures { Turned left ks w.old result.places w.new × (result.cells ≡ cells result.places) }
{
    let mut left = ks;
    let mut n = c;
    let mut step: usize = 1;
    // By index: the places change as the loop goes on.
    for i in 0..PLACES {
        if drop_if_possible(w, left, i, n, step) {
            left = sets::without_one(left, i);
            n = places::cell_count(left);
        }
        step *= left[i] as usize;
    }
    Left {
        places: left,
        cells: n,
    }
}
