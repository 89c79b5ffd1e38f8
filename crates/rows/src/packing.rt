// Extremes along the lines of one condition, packed: one for each line, so that the table loses the condition.
ghost use Rattle.std.specs.Prelude.{◌+◌, ◌*◌, ◌≤◌, ◌<◌, ◌≡◌, ◌⊎◌};
ghost use Rattle.rules.specs.Bytes.{tabulate};
ghost use Rattle.tables.specs.Line.{line_best, Block, Blocks, line_extremes};
ghost use Rattle.tables.specs.Part.{Laid};

use crate::blocks;
use crate::grades::{self, Lines};

// The extremes along the lines of a block at a, as a row at `to`: line by line.
fn pack_lines(w: &mut [u8], lines: Lines, a: usize, to: usize)
    requires { Block w.old a lines.step lines.card × (to ≤ a) }
    ensures { Laid w.old to (tabulate lines.step (λ o. line_best lines.greatest w.old (a + o) lines.step lines.card)) lines.step w.new }
{
    // By number: the row may lie where the lines that it is made of do.
    for o in 0..lines.step {
        w[to + o] = grades::line_extreme(w, lines, a + o);
    }
}

// The same, by rows where these are long.
fn pack_block(w: &mut [u8], lines: Lines, a: usize, to: usize)
    requires { Block w.old a lines.step lines.card × (to ≤ a) × ((a ≡ to) ⊎ (to + lines.step ≤ a)) }
    ensures { Laid w.old to (tabulate lines.step (λ o. line_best lines.greatest w.old (a + o) lines.step lines.card)) lines.step w.new }
{
    if lines.step < blocks::LONG {
        pack_lines(w, lines, a, to);
        return;
    }
    blocks::first_row(&[], w, lines, a, to);
}

// The extremes along the lines of a table of `count` blocks at a, one for each line, at `to`. The table may start
// there: what is written stands before every line that is still to be read.
pub fn pack_blocks(
    w: &mut [u8],
    greatest: bool,
    a: usize,
    to: usize,
    count: usize,
    step: usize,
    card: usize,
)
    requires { Blocks w.old a count step card × (to ≤ a) × ((a ≡ to) ⊎ (to + step ≤ a)) }
    ensures { Laid w.old to (line_extremes greatest w.old a step card count) (step * count) w.new }
{
    let lines = Lines {
        greatest,
        step,
        card,
    };
    let block = step * card;
    // By number: both offsets come from it.
    for b in 0..count {
        pack_block(w, lines, a + block * b, to + step * b);
    }
}
