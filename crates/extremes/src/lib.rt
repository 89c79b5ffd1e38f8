// Extremes over sets of conditions: at every cell the least or the greatest grade of the cells that agree with it
// outside the set. The grades are those of a slice that is lent for them or, where that is empty, they stand in
// the slice of the answers, beside these or at the same bytes.
//
// The walk goes down the places. At a member of the set the rows of a table, one for each of its values, become
// one, which is walked on and then repeated: so each grade is read once, and each answer written once but in that
// row, which has what its classes have come to so far, however many members there are.
#![tactic(auto)]

ghost use Rattle.std.specs.Prelude.{◌/◌, ◌<◌, ◌≤◌, ◌≡◌};
ghost use Rattle.rules.specs.Cell.{cells, singleton, over};
ghost use Rattle.tables.specs.Line.{best};
ghost use Rattle.tables.specs.Part.{part, Laid, Shaped};
ghost use Rattle.rows.specs.Grades.{source, Reads};
ghost use Rattle.rows.specs.Blocks.{Tables};
ghost use Rattle.extremes.specs.Walk.{Members, Swept};

use places::members;
use rows::blocks;
use rows::grades::{self, Lines};
use rules::PLACES;

// The extreme over condition i at every cell.
pub fn over_one(
    lent: &[u8],
    w: &mut [u8],
    greatest: bool,
    ks: [u8; PLACES],
    i: usize,
    n: usize,
    from: usize,
    to: usize,
)
    requires { (i < 8) × (n ≡ cells ks) × Shaped ks × Reads lent.now w.old from to n }
    ensures { Laid w.old to (over (best greatest) ks (singleton i) (part (source lent.now w.old) from n)) n w.new }
{
    blocks::along(lent, w, greatest, ks, i, n, from, to);
}

// How many cells a row has, of `card` rows.
fn row_of(size: usize, card: usize) -> usize
    requires { 0 < card }
    ensures { result ≡ size / card }
{
    // Most places that are passed have no condition, and a division is dear.
    if card == 1 {
        return size;
    }
    size / card
}

// What the walk needs at every place: which extreme, the places, the set, its lowest member, and how many low places
// have no condition but members.
#[derive(Clone, Copy)]
struct Walk {
    greatest: bool,
    places: [u8; PLACES],
    set: u8,
    lowest: usize,
    run: usize,
}

// The extremes over the members up to place i, in tables of `size` cells that lie one behind the other, n in all.
fn over_places(
    lent: &[u8],
    w: &mut [u8],
    walk: Walk,
    i: usize,
    size: usize,
    n: usize,
    from: usize,
    to: usize,
)
    requires { Tables walk.places i size n × Members walk.places walk.set walk.lowest walk.run × (walk.lowest ≤ i) × Reads lent.now w.old from to n }
    ensures { Swept walk.greatest walk.places walk.set size n (part (source lent.now w.old) from n) w.old to n w.new }
{
    let ks = walk.places;
    let greatest = walk.greatest;
    if i < walk.run {
        blocks::runs(lent, w, greatest, size, n, from, to);
        return;
    }
    if i == walk.lowest {
        blocks::along(lent, w, greatest, ks, i, n, from, to);
        return;
    }
    let card = ks[i] as usize;
    if !places::has_member(walk.set, i) {
        over_places(lent, w, walk, i - 1, row_of(size, card), n, from, to);
        return;
    }
    let step = size / card;
    let lines = Lines {
        greatest,
        step,
        card,
    };
    let count = n / size;
    // By number: both offsets come from it.
    for b in 0..count {
        let a = to + size * b;
        blocks::first_row(lent, w, lines, from + size * b, a);
        over_places(&[], w, walk, i - 1, step, step, a, a);
        blocks::repeat_row(w, a, step, card);
    }
}

// The extreme over a set at every cell.
pub fn over_set(
    lent: &[u8],
    w: &mut [u8],
    greatest: bool,
    ks: [u8; PLACES],
    set: u8,
    n: usize,
    from: usize,
    to: usize,
)
    requires { (n ≡ cells ks) × Shaped ks × Reads lent.now w.old from to n }
    ensures { Laid w.old to (over (best greatest) ks set (part (source lent.now w.old) from n)) n w.new }
{
    let lowest = members::lowest(set);
    if lowest == PLACES {
        grades::take_row(lent, w, from, to, n);
        return;
    }
    let run = members::run(ks, set);
    let top = members::highest(set);
    let size = places::step(ks, top + 1);
    // Most sets are one run, or one condition: there is no place to go down to.
    if top < run {
        blocks::runs(lent, w, greatest, size, n, from, to);
        return;
    }
    if top == lowest {
        blocks::along(lent, w, greatest, ks, top, n, from, to);
        return;
    }
    let walk = Walk {
        greatest,
        places: ks,
        set,
        lowest,
        run,
    };
    over_places(lent, w, walk, top, size, n, from, to);
}
