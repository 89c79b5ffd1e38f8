// Blocks: the cells of a condition's lines that lie together, a row for each value.
ghost use Rattle.std.specs.Prelude.{◌+◌, ◌*◌, ◌/◌, ◌<◌, ◌≤◌, length};
ghost use Rattle.rules.specs.Bytes.{tabulate};
ghost use Rattle.rules.specs.Cell.{card, step};
ghost use Rattle.tables.specs.Line.{line_best, Line, Spread, Block, along_lines};
ghost use Rattle.tables.specs.Part.{part, Laid};
ghost use Rattle.rows.specs.Grades.{source, Room, Reads};
ghost use Rattle.rows.specs.Blocks.{BlockSet, Started, Repeated, Several, Tables};

use crate::grades::{self, Lines};
use rules::PLACES;
use tables::fill;

// From so many cells on a row is long.
pub const LONG: usize = 8;

// A grade to each cell of a line.
fn line_fill(w: &mut [u8], grade: u8, a: usize, step: usize, card: usize)
    requires { Line w.old a step card }
    ensures { Spread w.old a step (λ _. grade) card w.new }
{
    if card == 2 {
        w[a] = grade;
        w[a + step] = grade;
        return;
    }
    // By number: a proof learns nothing of what is written through a `step_by` of `iter_mut`.
    for v in 0..card {
        w[a + step * v] = grade;
    }
}

// The extreme of each line of a block of grades, all along the line.
fn line_by_line(lent: &[u8], w: &mut [u8], lines: Lines, from: usize, to: usize)
    requires { (0 < lines.card) × Reads lent.now w.old from to (lines.step * lines.card) }
    ensures { BlockSet lines.greatest (source lent.now w.old) from w.old to lines.step lines.card lines.step w.new }
{
    // By number: both offsets come from it.
    for o in 0..lines.step {
        let grade = grades::line_grade(lent, w, lines, from + o);
        line_fill(w, grade, to + o, lines.step, lines.card);
    }
}

// A row that has the first row of a block of grades, replaced by the extremes along the block's lines.
fn fold_rows(lent: &[u8], w: &mut [u8], lines: Lines, from: usize, to: usize)
    requires { (0 < lines.card) × (0 < lines.step) × Room lent.now w.old from (lines.step * lines.card) to lines.step
        × Started (source lent.now w.old) from w.old to lines.step }
    ensures { Laid w.old to (tabulate lines.step (λ o. line_best lines.greatest (source lent.now w.old) (from + o) lines.step lines.card)) lines.step w.new }
{
    let step = lines.step;
    // By number: the offset comes from it.
    for v in 1..lines.card {
        grades::fold_row(lent, w, lines.greatest, from + step * v, to, step);
    }
}

// The extremes along the lines of a block of grades, one for each line, as a row.
pub fn first_row(lent: &[u8], w: &mut [u8], lines: Lines, from: usize, to: usize)
    requires { (0 < lines.card) × (0 < lines.step) × Room lent.now w.old from (lines.step * lines.card) to lines.step }
    ensures { Laid w.old to (tabulate lines.step (λ o. line_best lines.greatest (source lent.now w.old) (from + o) lines.step lines.card)) lines.step w.new }
{
    grades::take_row(lent, w, from, to, lines.step);
    fold_rows(lent, w, lines, from, to);
}

// The other rows of a block, replaced by its first.
pub fn repeat_row(w: &mut [u8], a: usize, step: usize, card: usize)
    requires { Block w.old a step card }
    ensures { Repeated w.old a step card card w.new }
{
    // By number: the offset comes from it.
    for v in 1..card {
        fill::copy(w, a, a + step * v, step);
    }
}

// The extreme of each line of a block of grades, all along the line: by rows where these are long.
fn block(lent: &[u8], w: &mut [u8], lines: Lines, from: usize, to: usize)
    requires { (0 < lines.card) × Reads lent.now w.old from to (lines.step * lines.card) }
    ensures { BlockSet lines.greatest (source lent.now w.old) from w.old to lines.step lines.card lines.step w.new }
{
    if lines.step < LONG {
        line_by_line(lent, w, lines, from, to);
        return;
    }
    first_row(lent, w, lines, from, to);
    repeat_row(w, to, lines.step, lines.card);
}

// The extremes along condition i, in tables of the places up to it, n cells in all.
pub fn along(
    lent: &[u8],
    w: &mut [u8],
    greatest: bool,
    ks: [u8; PLACES],
    i: usize,
    n: usize,
    from: usize,
    to: usize,
)
    requires { Tables ks i (step ks i * card ks i) n × Reads lent.now w.old from to n }
    ensures { Laid w.old to (along_lines greatest (part (source lent.now w.old) from n) (step ks i) (card ks i) (n / (step ks i * card ks i))) n w.new }
{
    let step = places::step(ks, i);
    let card = ks[i] as usize;
    let lines = Lines {
        greatest,
        step,
        card,
    };
    let size = step * card;
    let count = n / size;
    // By number: both offsets come from it.
    for b in 0..count {
        block(lent, w, lines, from + size * b, to + size * b);
    }
}

// A grade at cells that lie together. Most runs are two cells, for which a call of memset is dear.
fn run_fill(w: &mut [u8], grade: u8, a: usize, size: usize)
    requires { a + size ≤ length w.old }
    ensures { Laid w.old a (tabulate size (λ _. grade)) size w.new }
{
    if size == 2 {
        w[a] = grade;
        w[a + 1] = grade;
        return;
    }
    fill::fill(w, grade, a, size);
}

// The extreme of each `size` of n grades that lie together, all along them.
pub fn runs(
    lent: &[u8],
    w: &mut [u8],
    greatest: bool,
    size: usize,
    n: usize,
    from: usize,
    to: usize,
)
    requires { Several size n × Reads lent.now w.old from to n }
    ensures { Laid w.old to (along_lines greatest (part (source lent.now w.old) from n) 1 size (n / size)) n w.new }
{
    let lines = Lines {
        greatest,
        step: 1,
        card: size,
    };
    let count = n / size;
    // By number: both offsets come from it.
    for b in 0..count {
        let grade = grades::line_grade(lent, w, lines, from + size * b);
        run_fill(w, grade, to + size * b, size);
    }
}
