// The two join calls: the limits of the first block, and those of the second once the first is given.
#![tactic(auto)]

ghost use Rattle.std.specs.Prelude.{◌*◌, ◌≤◌, ◌≡◌, length};
ghost use Rattle.rules.specs.Limits.{limits_of};
ghost use Rattle.join.specs.Calls.{JoinFirst, JoinSecond};
ghost use Rattle.join.specs.Steps.{Ready, Judgement, Opening, Opens, Given, Completes, Delivered};

use rules::{Gate, PLACES, Refusal};
use shape::Shape;
use tables::{fill, limits};

mod sets;

// Six tables of as many cells as a shape can have.
const WORK: usize = 6144;

// Rows 4, 10, 5 and 7, with the length of the shortest lent buffer.
fn judge(
    shape: Shape,
    ks: [u8; PLACES],
    n: usize,
    lower: &[u8],
    upper: &[u8],
    shortest: usize,
    s: u8,
    t: u8,
) -> Result<(), Refusal>
    requires { Ready shape ks n lower.now upper.now shortest }
    ensures { Judgement shape (limits_of lower.now upper.now) s t shortest result }
{
    if !shape.sound() {
        return Err(Refusal::ShapeRange);
    }
    if shortest < n {
        return Err(Refusal::ShortBuffer);
    }
    if !limits::limits_sound(lower, upper, shape.m, n) {
        return Err(Refusal::GradeLimits);
    }
    if !sets::sets_sound(ks, s, t) {
        return Err(Refusal::Sets);
    }
    Ok(())
}

// Opens the join under the lent limits in the work buffer. Row 8: whether it exists.
fn open(
    w: &mut [u8],
    lower: &[u8],
    upper: &[u8],
    gate: Gate,
    ks: [u8; PLACES],
    m: u8,
    s: u8,
    t: u8,
    n: usize,
) -> Result<(), Refusal>
    requires { Opening ks m n lower.now upper.now w.old }
    ensures { Opens gate ks m s t (limits_of lower.now upper.now) n w.old result w.new }
{
    join_tables::open_limits(w, lower, upper, gate, ks, m, s, t, n);
    if !join_tables::exists(w, n) {
        return Err(Refusal::NoJoin);
    }
    Ok(())
}

// Of an open join that exists, given a first block g: parts 4 and 5 become the second block's limits.
// Row 9: whether g can be the first block.
fn second_given(
    w: &mut [u8],
    gate: Gate,
    ks: [u8; PLACES],
    m: u8,
    s: u8,
    t: u8,
    g: &[u8],
    n: usize,
) -> Result<(), Refusal>
    requires { Given gate ks m s t n g.now w.old }
    ensures { Completes gate ks m s t n g.now w.old result w.new }
{
    join_tables::first_limits(w, gate, ks, m, t, n);
    fill::load(w, g, 2 * n, n);
    if !join_tables::block_sound(w, g, ks, t, n) {
        return Err(Refusal::FirstBlock);
    }
    join_tables::second_limits(w, gate, ks, m, s, n);
    Ok(())
}

// The limits in parts 4 and 5, to the two buffers lent for them.
fn deliver(w: &[u8], n: usize, out_lower: &mut [u8], out_upper: &mut [u8])
    requires { (6 * n ≤ length w.now) × (n ≤ length out_lower.old) × (n ≤ length out_upper.old) }
    ensures { Delivered n w.now out_lower.old out_upper.old out_lower.new out_upper.new }
{
    fill::unload(w, 4 * n, out_lower, n);
    fill::unload(w, 5 * n, out_upper, n);
}

// The limits of a join's first block, to the two buffers lent for them.
pub fn join_first(
    shape: Shape,
    lower: &[u8],
    upper: &[u8],
    gate: Gate,
    s: u8,
    t: u8,
    out_lower: &mut [u8],
    out_upper: &mut [u8],
) -> Result<(), Refusal>
    ensures { JoinFirst shape lower.now upper.now gate s t out_lower.old out_upper.old result out_lower.new out_upper.new }
{
    let ks = shape.places();
    let n = places::cell_count(ks);
    let outs = out_lower.len().min(out_upper.len());
    let shortest = lower.len().min(upper.len()).min(outs);
    judge(shape, ks, n, lower, upper, shortest, s, t)?;
    let mut work = [0u8; WORK];
    open(&mut work, lower, upper, gate, ks, shape.m, s, t, n)?;
    join_tables::first_limits(&mut work, gate, ks, shape.m, t, n);
    deliver(&work, n, out_lower, out_upper);
    Ok(())
}

// The limits of a join's second block, given the first.
pub fn join_second(
    shape: Shape,
    lower: &[u8],
    upper: &[u8],
    gate: Gate,
    s: u8,
    t: u8,
    g: &[u8],
    out_lower: &mut [u8],
    out_upper: &mut [u8],
) -> Result<(), Refusal>
    ensures { JoinSecond shape lower.now upper.now gate s t g.now out_lower.old out_upper.old result out_lower.new out_upper.new }
{
    let ks = shape.places();
    let n = places::cell_count(ks);
    let outs = out_lower.len().min(out_upper.len());
    let shortest = lower.len().min(upper.len()).min(g.len()).min(outs);
    judge(shape, ks, n, lower, upper, shortest, s, t)?;
    let mut work = [0u8; WORK];
    open(&mut work, lower, upper, gate, ks, shape.m, s, t, n)?;
    second_given(&mut work, gate, ks, shape.m, s, t, g, n)?;
    deliver(&work, n, out_lower, out_upper);
    Ok(())
}
