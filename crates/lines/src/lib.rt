// The lines of a table, the cells that differ in one condition only: a walk over all cells that knows each
// one's line with no division, and a grade against those along a line, with no more of them read than decide.
#![tactic(auto)]

pub mod walk;

ghost use Rattle.std.specs.Prelude.{◌+◌, ◌*◌, ◌≤◌, ◌≡◌, false, not, leb};
ghost use Rattle.tables.specs.Line.{line_best, Line};
ghost use Rattle.lines.specs.Along.{LineOn, least_on, first, Next};

// A cell on its line: the step and the cardinality of the line's condition, how far before the cell the
// line's first one lies, and how many cells on the condition has its next value.
#[derive(Clone, Copy)]
pub struct Along {
    pub step: usize,
    pub card: usize,
    pub back: usize,
    pub ahead: usize,
}

// The first cell of a table.
pub fn first(step: usize, card: usize) -> Along
    ensures { result ≡ first step card }
{
    Along {
        step,
        card,
        back: 0,
        ahead: step,
    }
}

// The next cell of the table on its line.
pub fn next(on: Along) -> Along
    requires { (on.back + on.step ≤ on.step * on.card) × (on.step * on.card ≤ 1024) }
    ensures { Next on result }
{
    if 1 < on.ahead {
        return Along {
            ahead: on.ahead - 1,
            ..on
        };
    }
    let ahead = on.step;
    let back = on.back + on.step;
    if back < on.step * on.card {
        return Along { back, ahead, ..on };
    }
    Along {
        back: 0,
        ahead,
        ..on
    }
}

// Whether some grade along a line is below the one given: the bytes at a, a + step, .., card of them.
fn below(w: &[u8], a: usize, step: usize, card: usize, grade: u8) -> bool
    requires { Line w.now a step card }
    ensures { result ≡ not (leb grade (line_best false w.now a step card)) }
{
    (0..card).any(|v| w[a + step * v] < grade)
}

// The same along the line through cell c of a table.
pub fn below_at(w: &[u8], table: usize, c: usize, on: Along, grade: u8) -> bool
    requires { LineOn w.now table c on }
    ensures { result ≡ not (leb grade (least_on w.now table c on)) }
{
    if grade == 0 {
        return false;
    }
    below(w, table + c - on.back, on.step, on.card, grade)
}
