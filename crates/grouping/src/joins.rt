// The test of whether a set that grows still joins. It writes nothing, and stops at the first cell that refuses.
ghost use Rattle.std.specs.Prelude.{◌+◌, ◌<◌, max, ◌≡◌, leb, length};
ghost use Rattle.rules.specs.Bytes.{at};
ghost use Rattle.rules.specs.Cell.{cells};
ghost use Rattle.tables.specs.Line.{Counts};
ghost use Rattle.lines.specs.Along.{LineOn, least_on};
ghost use Rattle.tables.specs.Part.{part};
ghost use Rattle.grouping.specs.Joining.{Tables, admits};

use lines::{Along, walk};
use rules::PLACES;

// Whether the lower grade of cell c is no higher than the grade kept there, or than each along the cell's line.
fn cell_joins(w: &[u8], low: usize, keep: usize, grow: usize, c: usize, on: Along) -> bool
    requires { (low + c < length w.now) × (keep + c < length w.now) × LineOn w.now grow c on }
    ensures { result ≡ leb (at w.now (low + c)) (max (at w.now (keep + c)) (least_on w.now grow c on)) }
{
    let grade = w[low + c];
    grade <= w[keep + c] || !lines::below_at(w, grow, c, on, grade)
}

// Whether condition i can be added to the set whose table is at `grow`, beside the table at `keep`
// of the other set.
pub fn may_add(
    w: &[u8],
    ks: [u8; PLACES],
    i: usize,
    n: usize,
    step: usize,
    low: usize,
    keep: usize,
    grow: usize,
) -> bool
    requires { Counts ks i n step × Tables w.now ks low keep × Tables w.now ks low grow }
    ensures { result ≡ admits ks i (part w.now low (cells ks)) (part w.now keep (cells ks)) (part w.now grow (cells ks)) }
{
    walk::all_cells(
        n,
        step,
        ks[i] as usize,
        |c, on| cell_joins(w, low, keep, grow, c, on),
    )
}
