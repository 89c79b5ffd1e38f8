// Masks made from a stage's limits. In parts of n bytes, one for each cell, the limits are 0 and 1, the masks for max 2,
// those for min 3; part 4 is lost.
#![tactic(auto)]

ghost use Rattle.std.specs.Prelude.{◌+◌, ◌*◌, ◌/◌, ◌≤◌, ◌<◌, ◌≡◌, ltb};
ghost use Rattle.rules.specs.Bytes.{pick, tabulate};
ghost use Rattle.rules.specs.Cell.{cells, card, singleton, over};
ghost use Rattle.tables.specs.Line.{best, Counts};
ghost use Rattle.tables.specs.Part.{part, Laid, Two, Shaped};
ghost use Rattle.rows.specs.Blocks.{Several};
ghost use Rattle.mask_making.specs.Making.{Space, Made};
ghost use Rattle.mask_making.specs.Marking.{marked, Holds, Taken, AllHave, HasBit, HaveBit, OnlyLine, RowsMarked, BlocksMarked, Marked};

use places::sets;
use rules::PLACES;
use tables::fill;

// What is taken from a mask: the bit, unless the grade is above the limit.
fn bit_unless_above(grade: u8, limit: u8, bit: u8) -> u8
    ensures { (result ≡ pick (ltb limit grade) 0 bit) × (result ≤ bit) }
{
    if limit < grade { 0 } else { bit }
}

// Takes a bit from the masks at `to` of the cells whose grade at `low` is not above the one at `high`. By index: the
// grades lie before and behind the masks in one call and turned round in the other, so slices would need two cuts each.
fn mark(w: &mut [u8], low: usize, high: usize, to: usize, n: usize, bit: u8)
    requires { Two w.old low to n × Two w.old high to n × AllHave w.old to n bit }
    ensures { Laid w.old to (tabulate n (marked w.old low high to bit)) n w.new }
{
    for x in 0..n {
        w[to + x] -= bit_unless_above(w[low + x], w[high + x], bit);
    }
}

// The extreme over condition i of the table at `from`, at `to`.
fn extreme_over(
    w: &mut [u8],
    greatest: bool,
    ks: [u8; PLACES],
    i: usize,
    from: usize,
    to: usize,
    n: usize,
)
    requires { (i < 8) × Shaped ks × (n ≡ cells ks) × Two w.old from to n }
    ensures { Laid w.old to (over (best greatest) ks (singleton i) (part w.old from n)) n w.new }
{
    fill::copy(w, from, to, n);
    extremes::over_one(&[], &mut w[to..to + n], greatest, ks, i, n, 0, 0);
}

// The masks of both gates for condition i, by its extremes at every cell.
fn mark_lines(w: &mut [u8], ks: [u8; PLACES], i: usize, n: usize, bit: u8)
    requires { (i < 8) × Space w.old ks n × HaveBit w.old n bit 0 }
    ensures { Marked w.old ks i n bit w.new }
{
    extreme_over(w, false, ks, i, n, 4 * n, n);
    mark(w, 0, 4 * n, 2 * n, n, bit);
    extreme_over(w, true, ks, i, 0, 4 * n, n);
    mark(w, 4 * n, n, 3 * n, n, bit);
}

// Takes a bit from one mask.
fn take_bit(w: &mut [u8], j: usize, bit: u8)
    requires { Holds w.old j bit }
    ensures { Taken w.old j bit w.new }
{
    w[j] -= bit;
}

// The masks of both gates of the cells a and b, which are a line. Each cell's limits are in order, so only those of
// the other cell can refuse it; and what refuses one cell for max refuses the other for min.
fn mark_two(w: &mut [u8], a: usize, b: usize, n: usize, bit: u8)
    requires { (a < b) × (b < n) × HasBit w.old n bit a × HasBit w.old n bit b }
    ensures { OnlyLine w.old n bit a b w.new }
{
    let up = bit_unless_above(w[a], w[n + b], bit);
    let down = bit_unless_above(w[b], w[n + a], bit);
    take_bit(w, 2 * n + a, up);
    take_bit(w, 2 * n + b, down);
    take_bit(w, 3 * n + a, down);
    take_bit(w, 3 * n + b, up);
}

// The lines of a block of two rows at a. By index: a line has a cell in each row of two parts, and reads two others.
fn mark_rows(w: &mut [u8], a: usize, step: usize, n: usize, bit: u8)
    requires { (a + step * 2 ≤ n) × HaveBit w.old n bit a }
    ensures { RowsMarked w.old n bit a step step w.new }
{
    for o in 0..step {
        mark_two(w, a + o, a + step + o, n, bit);
    }
}

// The lines of all blocks of a condition of two values. By index: a block lies at the same place in four parts.
fn mark_blocks(w: &mut [u8], n: usize, step: usize, bit: u8)
    requires { Several (step * 2) n × HaveBit w.old n bit 0 }
    ensures { BlocksMarked w.old n bit step (n / (step * 2)) w.new }
{
    let size = step * 2;
    let count = n / size;
    for b in 0..count {
        mark_rows(w, size * b, step, n, bit);
    }
}

// The masks of both gates for condition i. Most conditions have two values: their lines need no extremes.
fn mark_condition(
    w: &mut [u8],
    ks: [u8; PLACES],
    i: usize,
    n: usize,
    step: usize,
    values: usize,
    bit: u8,
)
    requires { Counts ks i n step × (values ≡ card ks i) × Space w.old ks n × HaveBit w.old n bit 0 }
    ensures { Marked w.old ks i n bit w.new }
{
    if values == 2 {
        mark_blocks(w, n, step, bit);
    } else {
        mark_lines(w, ks, i, n, bit);
    }
}

// The masks of both gates, for the limits of n cells over the places ks at the front of the buffer. Every bit is there
// at first, and goes where its condition is there and the cell does not refuse it: so the bits of the conditions that
// are not there stay, and a mask that refuses all conditions is full.
pub fn make(w: &mut [u8], ks: [u8; PLACES], n: usize)
    requires { Space w.old ks n }
    ensures { Made w.old ks n w.new }
{
    fill::fill(w, 255, 2 * n, 2 * n);
    let mut step: usize = 1;
    for (i, card) in ks.iter().enumerate() {
        let values = *card as usize;
        if 1 < values {
            mark_condition(w, ks, i, n, step, values, sets::singleton(i));
        }
        step *= values;
    }
}
