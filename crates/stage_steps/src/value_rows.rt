// Step 6 on a condition that is not the lowest: its rows have more cells than one. These functions call themselves, and
// are so kept out of a split's loop, where they would cost the usual split its registers.
ghost use Rattle.std.specs.Prelude.{◌*◌, ◌/◌};
ghost use Rattle.stage_steps.specs.Rows.{LayRoom, RowsLaid, GiveRoom};
ghost use Rattle.moves.specs.Row.{Given};

use tables::fill;

// The limits and the masks of a stage.
pub const TABLES: usize = 4;

// Of these, the limits.
const LIMITS: usize = 2;

// The cells with value k of condition i, n of each of the first `tables` tables, at 8 × c. A stage below the split
// lacks the condition; its bit is added to the masks, so that one which refuses all others is full.
pub fn lay(
    w: &mut [u8],
    c: usize,
    n: usize,
    step: usize,
    values: usize,
    k: usize,
    i: u8,
    tables: usize,
)
    requires { LayRoom w.old i n step values c k tables }
    ensures { RowsLaid w.old i n step values c k tables w.new }
{
    if tables == 0 {
        return;
    }
    let before = tables - 1;
    lay(w, c, n, step, values, k, i, before);
    let to = 8 * c + before * n;
    moves::cofactor_rows(w, before * c, to, n, step, values, k);
    if LIMITS < tables {
        masks::add(w, to, n, i as usize);
    }
}

// The rows from `first` to `last` of the table at 8 × c, at the places of the cells with value k in the one at 4 × c.
pub fn give(w: &mut [u8], c: usize, step: usize, values: usize, k: usize, first: usize, last: usize)
    requires { GiveRoom w.old step values c k first last }
    ensures { Given w.old (8 * c) (4 * c) (c / values) step values k first last w.new }
{
    if last - first == 1 {
        fill::copy(
            w,
            8 * c + step * first,
            4 * c + step * (k + values * first),
            step,
        );
    } else {
        let middle = first + (last - first) / 2;
        give(w, c, step, values, k, first, middle);
        give(w, c, step, values, k, middle, last);
    }
}
