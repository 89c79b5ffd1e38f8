// The stages of compiling a table. A stage joins, or divides: it splits, or takes a weak join in the place of a split.
// Each of these starts stages with fewer conditions, but for the first block of a weak join, which has as many and may
// take no weak join itself.
#![tactic(auto)]

ghost use Rattle.std.specs.Prelude.{◌≤◌, ◌<◌, ◌≡◌, false, ◌&&◌, ◌||◌, ltb};
ghost use Rattle.rules.specs.Cell.{width, singleton};
ghost use Rattle.rules.specs.Settings.{settings_of};
ghost use Rattle.rules.specs.Stage.{weakly, fewest, tree_of};
ghost use Rattle.places.specs.Conditions.{IsLowest};
ghost use Rattle.tables.specs.Part.{Shaped};
ghost use Rattle.stage_drops.specs.Working.{front_stage};
ghost use Rattle.stage_steps.specs.Cuts.{IsCut};
ghost use Rattle.stages.specs.Begins.{is_masked, may_take};
ghost use Rattle.stages.specs.Staging.{Starts, Written, Numbered, splits_on, Splits, Divided, CanJoin, Joined, Tries, Counted, tried_if, Divides};

use grouping::Sets;
use places::sets;
use places::sets::Condition;
use rules::{Gate, PLACES};
use stage_choice::Choice;
use stage_steps::cuts::Cut;
use stage_steps::gates::Extent;
use stage_steps::{cuts, ends, values};
use weak_joins::{Candidates, WeakJoin};

// How a stage begins. One that a split starts finds its masks behind its limits; another makes them. The first block
// of a weak join may take no weak join itself until it has lost a condition. One argument for both: a stage has many,
// and each more is sixteen bytes of stack in all that are nested.
#[derive(Clone, Copy)]
pub enum Begin {
    Masked,
    Fresh,
    Tight,
}

impl Begin {
    // Whether the masks are known.
    fn is_masked(self) -> bool
        ensures { result ≡ is_masked self }
    {
        matches!(self, Begin::Masked)
    }

    // Whether a weak join may be taken.
    fn may_take(self) -> bool
        ensures { result ≡ may_take self }
    {
        !matches!(self, Begin::Tight)
    }
}

// The condition that a split takes.
fn split_on(ks: [u8; PLACES], low: Condition, how: u8) -> Cut
    requires { Shaped ks × IsLowest ks low × (1 ≤ width ks) }
    ensures { IsCut ks (splits_on how ks) result }
{
    cuts::find(ks, low, settings::splits(how))
}

// Step 6: a stage for each value, with a literal before it and gates behind it. Each is lent the limits of its cells
// and, since a split leaves them true, their masks. Their functions are collected in part 4, and what stands before it
// stays. Of a row and the distance to the next the compiler is told no more than that these are numbers: a distance
// that it knew by the name of the values alone would have it make a loop more, for a condition of one value.
#[cycle(count_both_divide_join_shorter_split_stage)]
fn split(
    w: &mut [u8],
    network: &mut [u8],
    ks: [u8; PLACES],
    low: Condition,
    m: u8,
    c: usize,
    r: usize,
    want: bool,
    how: u8,
) -> Extent
    requires { Splits (settings_of how) m (splits_on how ks) ks c w.old r × IsLowest ks low }
    ensures { Divided (settings_of how) m (splits_on how ks) ks c want w.old network.old r result w.new network.new }
{
    let on = split_on(ks, low, how);
    let i = on.number;
    let values = on.values;
    let step = on.step;
    let b = sets::without_one(ks, i);
    let n = c / values;
    let apart = step * values;
    let rest = 8 * c;
    let mut total = Extent { next: r, depth: 0 };
    for k in 0..values {
        let literal = values::begin_value(
            w,
            network,
            i as u8,
            step,
            apart,
            values,
            n,
            c,
            k,
            m - 1,
            total.next,
        );
        let of = stage(
            &mut w[rest..],
            network,
            b,
            n,
            m,
            literal.next,
            Begin::Masked,
            want,
            how,
        );
        values::keep_value(w, want, n, step, apart, values, c, k);
        total = values::end_value(network, k, total, literal, of);
    }
    total
}

// Step 5: a stage for each block, then the gate. The second block is made from the function of the
// first, which is wanted whether the join's own is or not. The first block of a weak join may take none.
#[cycle(count_both_divide_join_shorter_split_stage)]
fn join(
    w: &mut [u8],
    network: &mut [u8],
    ks: [u8; PLACES],
    m: u8,
    c: usize,
    gate: Gate,
    of: Sets,
    begin: Begin,
    r: usize,
    want: bool,
    how: u8,
) -> Extent
    requires { CanJoin (settings_of how) gate m ks of.s of.t (may_take begin) c w.old r × (is_masked begin ≡ false) }
    ensures { Joined (settings_of how) gate m ks of.s of.t (may_take begin) c want w.old network.old r result w.new network.new }
{
    let rest = 8 * c;
    let first_block = stage_blocks::first_table(w, gate, m, ks, of.t, c);
    let a = first_block.places;
    let first = stage(
        &mut w[rest..],
        network,
        a,
        first_block.cells,
        m,
        r,
        begin,
        true,
        how,
    );
    let second_block = stage_blocks::second_table(w, gate, m, ks, a, of.s, c);
    let b = second_block.places;
    let second = stage(
        &mut w[rest..],
        network,
        b,
        second_block.cells,
        m,
        first.next,
        Begin::Fresh,
        want,
        how,
    );
    ends::close_join(w, network, gate, ks, b, c, first, second, want)
}

// The sets of a weak join at condition i: the second is empty.
fn alone(i: usize) -> Sets
    requires { i < 8 }
    ensures { (result.s ≡ singleton i) × (result.t ≡ 0) }
{
    Sets {
        s: sets::singleton(i),
        t: 0,
    }
}

// The split and a weak join, counted: both are lent a network buffer without a byte. Where
// functions are wanted, the weak join's is at the front and the split's in part 4; where not, the limits are still
// there, as the weak join wants them.
#[cycle(count_both_divide_join_shorter_split_stage)]
fn count_both(
    w: &mut [u8],
    ks: [u8; PLACES],
    low: Condition,
    m: u8,
    c: usize,
    tried: WeakJoin,
    want: bool,
    how: u8,
) -> Candidates
    requires { Tries (settings_of how) m (splits_on how ks) ks tried.condition c w.old × IsLowest ks low }
    ensures { Counted (settings_of how) tried.gate m (splits_on how ks) ks tried.condition c want w.old result w.new }
{
    let mut none = [0u8; 0];
    let split = split(w, &mut none, ks, low, m, c, 0, want, how);
    weak_joins::open(w, tried.gate, m, ks, tried.condition, c);
    let weak = join(
        w,
        &mut none,
        ks,
        m,
        c,
        tried.gate,
        alone(tried.condition),
        Begin::Tight,
        0,
        want,
        how,
    );
    Candidates { split, weak }
}

// The weak join, if it has fewer records than the split, else the split. Nothing is written
// before both are counted. Where nothing will be, the function of the one that is kept need not be made again.
#[cycle(count_both_divide_join_shorter_split_stage)]
fn shorter(
    w: &mut [u8],
    network: &mut [u8],
    ks: [u8; PLACES],
    low: Condition,
    m: u8,
    c: usize,
    tried: WeakJoin,
    r: usize,
    want: bool,
    how: u8,
) -> Extent
    requires { Tries (settings_of how) m (splits_on how ks) ks tried.condition c w.old × IsLowest ks low × Numbered (fewest m (tree_of (settings_of how) m) (weakly tried.gate tried.condition) (splits_on how ks) (front_stage ks w.old)) r }
    ensures { Written ks (fewest m (tree_of (settings_of how) m) (weakly tried.gate tried.condition) (splits_on how ks) (front_stage ks w.old)) 0 want w.old network.old r result w.new network.new }
{
    if network.len() == 0 {
        let counted = count_both(w, ks, low, m, c, tried, want, how);
        return weak_joins::keep(w, counted, c, r, want);
    }
    let counted = count_both(w, ks, low, m, c, tried, false, how);
    if counted.weak.next < counted.split.next {
        weak_joins::reopen(w, ks, tried.condition, c);
        return join(
            w,
            network,
            ks,
            m,
            c,
            tried.gate,
            alone(tried.condition),
            Begin::Tight,
            r,
            want,
            how,
        );
    }
    weak_joins::restore(w, tried.gate, m, ks, c);
    let of = split(w, network, ks, low, m, c, r, want, how);
    values::collect(w, want, c);
    of
}

// Where no two sets join: a split, or the weak join that takes its place, if one is to be tried.
#[cycle(count_both_divide_join_shorter_split_stage)]
fn divide(
    w: &mut [u8],
    network: &mut [u8],
    ks: [u8; PLACES],
    low: Condition,
    m: u8,
    c: usize,
    r: usize,
    sought: bool,
    want: bool,
    how: u8,
) -> Extent
    requires { Divides (settings_of how) m (splits_on how ks) ks c sought w.old r × IsLowest ks low }
    ensures { Written ks (fewest m (tree_of (settings_of how) m) (tried_if m sought (front_stage ks w.old)) (splits_on how ks) (front_stage ks w.old)) 0 want w.old network.old r result w.new network.new }
{
    match weak_joins::first_weak(w, ks, m, c, sought) {
        Some(tried) => shorter(w, network, ks, low, m, c, tried, r, want, how),
        None => {
            let of = split(w, network, ks, low, m, c, r, want, how);
            values::collect(w, want, c);
            of
        }
    }
}

// Whether a stage of c cells, of which n are left, tries a weak join: where these are tried at all, if it might before, or
// has lost a condition.
fn tries(how: u8, begin: Begin, n: usize, c: usize) -> bool
    ensures { result ≡ ((settings_of how).weak && (may_take begin || ltb n c)) }
{
    settings::weak(how) && (begin.may_take() || n < c)
}

// The network of the stage over ks, of c cells, whose limits are at the front of the work buffer and, where they are
// known, its masks behind them, as records from r on where the network buffer has room. Its function is left at the
// front where it is wanted: a join reads the function of its first block, and its own is made of both.
#[cycle(count_both_divide_join_shorter_split_stage)]
pub fn stage(
    w: &mut [u8],
    network: &mut [u8],
    ks: [u8; PLACES],
    c: usize,
    m: u8,
    r: usize,
    begin: Begin,
    want: bool,
    how: u8,
) -> Extent
    requires { Starts (settings_of how) m ks c (is_masked begin) (may_take begin) w.old r }
    ensures { Written ks (tree_of (settings_of how) m (may_take begin) (front_stage ks w.old)) 0 want w.old network.old r result w.new network.new }
{
    let known = begin.is_masked();
    let plan = stage_plan::plan_stage(w, ks, m, c, known, how);
    let left = plan.places;
    let n = plan.cells;
    let low = plan.low;
    let choice = plan.choice;
    let of = match choice {
        Choice::Leaf => ends::leaf(w, network, low, r),
        Choice::Split => {
            divide(
                w,
                network,
                left,
                low,
                m,
                n,
                r,
                tries(how, begin, n, c),
                want,
                how,
            )
        }
        Choice::Join(gate, sets) => join(
            w,
            network,
            left,
            m,
            n,
            gate,
            sets,
            Begin::Fresh,
            r,
            want,
            how,
        ),
    };
    ends::spread_if(w, want, left, ks, n, c);
    of
}
