// Grades that are read: of the slice that is lent for them or, where that is empty, of the one of the answers.
ghost use Rattle.std.specs.Prelude.{ℕ, ◌+◌, ◌*◌, ◌≤◌, ◌<◌, ◌≡◌, ◌++◌, List, length};
ghost use Rattle.rules.specs.Bytes.{at, tabulate};
ghost use Rattle.tables.specs.Line.{best, line_best, Line};
ghost use Rattle.tables.specs.Part.{part, Laid};
ghost use Rattle.rows.specs.Grades.{source, Reads, RowBeside};

use tables::fill;
use tables::grades::extreme;

// Lines of one condition, `card` bytes each that lie `step` apart, and which extreme of them is wanted.
#[derive(Clone, Copy)]
pub struct Lines {
    pub greatest: bool,
    pub step: usize,
    pub card: usize,
}

// The extreme of the line at a.
pub fn line_extreme(w: &[u8], lines: Lines, a: usize) -> u8
    requires { Line w.now a lines.step lines.card }
    ensures { result ≡ line_best lines.greatest w.now a lines.step lines.card }
{
    // Most conditions have two values: their lines need no loop.
    if lines.card == 2 {
        return extreme(lines.greatest, w[a], w[a + lines.step]);
    }
    (1..lines.card).fold(w[a], |found, v| {
        extreme(lines.greatest, found, w[a + lines.step * v])
    })
}

// The slice that holds the grades.
fn source<'a>(lent: &'a [u8], w: &'a [u8]) -> &'a [u8]
    ensures { result.now ≡ source lent.now w.now }
{
    if lent.len() == 0 { w } else { lent }
}

// The same of the grades.
pub fn line_grade(lent: &[u8], w: &[u8], lines: Lines, a: usize) -> u8
    requires { Line (source lent.now w.now) a lines.step lines.card }
    ensures { result ≡ line_best lines.greatest (source lent.now w.now) a lines.step lines.card }
{
    line_extreme(source(lent, w), lines, a)
}

// The n grades at `from`, where the slice of the answers is split round those that are to be written.
fn row<'a>(lent: &'a [u8], low: &'a [u8], high: &'a [u8], from: usize, n: usize) -> &'a [u8]
    requires { RowBeside lent.now low.now high.now from n }
    ensures { (v : List ℕ) → length v ≡ n → result.now ≡ part (source lent.now (low.now ++ (v ++ high.now))) from n }
{
    if lent.len() == 0 {
        return fill::beside(low, high, from, n);
    }
    &lent[from..from + n]
}

// n grades, at `to`.
pub fn take_row(lent: &[u8], w: &mut [u8], from: usize, to: usize, n: usize)
    requires { Reads lent.now w.old from to n }
    ensures { Laid w.old to (part (source lent.now w.old) from n) n w.new }
{
    if lent.len() == 0 && from == to {
        return;
    }
    let (low, rest) = w.split_at_mut(to);
    let (answers, high) = rest.split_at_mut(n);
    fill::put(answers, row(lent, low, high, from, n));
}

// Each answer, replaced by the extreme of it and of a grade. The grade goes by number: a proof learns nothing of what
// is written through a `zip` of `iter_mut`.
fn extremes(answers: &mut [u8], grades: &[u8], greatest: bool)
    requires { length answers.old ≡ length grades.now }
    ensures { (o : ℕ) → o < length grades.now → at answers.new o ≡ best greatest (at answers.old o) (at grades.now o) }
{
    for (o, answer) in answers.iter_mut().enumerate() {
        *answer = extreme(greatest, *answer, grades[o]);
    }
}

// The same of n answers at `to` and n grades.
pub fn fold_row(lent: &[u8], w: &mut [u8], greatest: bool, from: usize, to: usize, n: usize)
    requires { Reads lent.now w.old from to n × (length lent.now ≡ 0 → from ≡ to → ⊥) }
    ensures { Laid w.old to (tabulate n (λ o. best greatest (at w.old (to + o)) (at (source lent.now w.old) (from + o)))) n w.new }
{
    let (low, rest) = w.split_at_mut(to);
    let (answers, high) = rest.split_at_mut(n);
    extremes(answers, row(lent, low, high, from, n), greatest);
}
