// Step 6 of a stage: what a split does for one value, before and after that value's stage.
ghost use Rattle.std.specs.Prelude.{◌*◌, ◌≤◌, length};
ghost use Rattle.rules.specs.Bytes.{at};
ghost use Rattle.tables.specs.Part.{part, Laid};
ghost use Rattle.moves.specs.Row.{in_row, Scattered};
ghost use Rattle.stage_steps.specs.Values.{ValueRoom, ValueBegun, KeepRoom, EndRoom, ValueEnded};
ghost use Rattle.stage_steps.specs.Wanting.{Wanted};

use crate::gates::Extent;
use crate::value_rows::TABLES;
use crate::{gates, value_rows};
use network_records::put_selector;
use rules::Gate;
use tables::fill;

// The literal that selects value k of condition i, as record r, and the limits and masks of the cells with
// that value, n of them, at 8 × c. The four tables stand one behind the other, here and there, so where a row is one
// cell, one move takes all. `apart` is what a row and the next of that value are apart.
pub fn begin_value(
    w: &mut [u8],
    network: &mut [u8],
    i: u8,
    step: usize,
    apart: usize,
    values: usize,
    n: usize,
    c: usize,
    k: usize,
    top: u8,
    r: usize,
) -> Extent
    requires { ValueRoom w.old i n step apart values c k r }
    ensures { ValueBegun i step values n c k top w.old network.old r result w.new network.new }
{
    put_selector(network, r, i, values, k, top);
    if step == 1 {
        moves::cofactor(w, 0, 8 * c, 4 * n, apart, k);
    } else {
        value_rows::lay(w, c, n, step, values, k, i, TABLES);
    }
    Extent::of_record(r)
}

// The function of value k's stage, from 8 × c, at the cells with that value of the table in part 4, where it is
// wanted.
pub fn keep_value(
    w: &mut [u8],
    want: bool,
    n: usize,
    step: usize,
    apart: usize,
    values: usize,
    c: usize,
    k: usize,
)
    requires { KeepRoom w.old n step apart values c k }
    ensures { Wanted want (Scattered w.old (4 * c) (in_row step values k) (at (part w.old (8 * c) n)) n) w.old w.new }
{
    if want {
        if step == 1 {
            moves::uncofactor(w, 8 * c, 4 * c, n, apart, k);
        } else {
            value_rows::give(w, c, step, values, k, 0, n / step);
        }
    }
}

// The functions of all values, from part 4, at the front, where they are wanted.
pub fn collect(w: &mut [u8], want: bool, c: usize)
    requires { 5 * c ≤ length w.old }
    ensures { Wanted want (Laid w.old 0 (part w.old (4 * c) c) c) w.old w.new }
{
    if want {
        fill::copy(w, 4 * c, 0, c);
    }
}

// The gates behind the stage of value k: a min over the literal and the stage's network, and from the
// second value on a max over the total so far and that.
pub fn end_value(network: &mut [u8], k: usize, total: Extent, literal: Extent, of: Extent) -> Extent
    requires { EndRoom k total literal of }
    ensures { ValueEnded k total literal of network.old result network.new }
{
    let part = gates::gate_over(network, Gate::Min, literal, of);
    if k == 0 {
        return part;
    }
    gates::gate_over(network, Gate::Max, total, part)
}
