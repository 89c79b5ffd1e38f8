// Networks: whether one is sound, its grade at a cell and at each cell of a list, and whether it
// keeps within limits.
#![tactic(auto)]

ghost use Rattle.std.specs.Prelude.{◌≡◌, ◌&&◌, [], ◌∷◌, leb};
ghost use Rattle.rules.specs.Verdict.{roomy, outcome_of};
ghost use Rattle.network.specs.Evaluating.{judged, Evaluated};
ghost use Rattle.network.specs.EvaluatingEach.{EvaluatedEach};
ghost use Rattle.network.specs.Checking.{Checked, Checkable, Searched};

use rules::{RECORD, Refusal};
use shape::Shape;

// The first cell outside its limits, and the grade there.
#[derive(Clone, Copy)]
pub struct Outside {
    pub cell: usize,
    pub grade: u8,
}

// The network's grade at a cell. The work buffer has a byte for each record.
pub fn evaluate(network: &[u8], shape: Shape, work: &mut [u8], cell: usize) -> Result<u8, Refusal>
    ensures { Evaluated shape network.now cell work.old work.new result }
{
    judge(network, shape, network.len() / RECORD <= work.len())?;
    if shape.cells() <= cell {
        return Err(Refusal::CellNumber);
    }
    Ok(network_run::grade_at(network, shape, cell, work))
}

// The network's grade at each cell of a list, 255 for a number that is no cell's. The work buffer
// has a byte for each record, that of the grades one for each number.
pub fn evaluate_each(
    network: &[u8],
    shape: Shape,
    cells: &[u16],
    grades: &mut [u8],
    work: &mut [u8],
) -> Result<(), Refusal>
    ensures { EvaluatedEach shape network.now cells.now grades.old work.old result grades.new work.new }
{
    let room = network.len() / RECORD <= work.len() && cells.len() <= grades.len();
    judge(network, shape, room)?;
    network_visits::grade_each(network, shape, cells, grades, work);
    Ok(())
}

// What evaluating asks first: a sound shape, room in the lent buffers, a sound network.
fn judge(network: &[u8], shape: Shape, room: bool) -> Result<(), Refusal>
    ensures { result ≡ outcome_of (judged shape network.now room) }
{
    if !shape.sound() {
        return Err(Refusal::ShapeRange);
    }
    if !room {
        return Err(Refusal::ShortBuffer);
    }
    if !network_scan::scan(network, shape.places(), shape.m) {
        return Err(Refusal::Network);
    }
    Ok(())
}

// Whether the network's grade lies within the limits at every cell, or the first cell outside.
pub fn check(
    network: &[u8],
    shape: Shape,
    lower: &[u8],
    upper: &[u8],
    work: &mut [u8],
) -> Result<Option<Outside>, Refusal>
    ensures { Checked shape network.now lower.now upper.now work.old work.new result }
{
    // Not by `judge`: row 5 stands between 10 and 11.
    if !shape.sound() {
        return Err(Refusal::ShapeRange);
    }
    let cells = shape.cells();
    if !has_room(cells, lower.len(), upper.len()) {
        return Err(Refusal::ShortBuffer);
    }
    if work.len() < network.len() / RECORD {
        return Err(Refusal::ShortBuffer);
    }
    if !tables::limits::limits_sound(lower, upper, shape.m, cells) {
        return Err(Refusal::GradeLimits);
    }
    if !network_scan::scan(network, shape.places(), shape.m) {
        return Err(Refusal::Network);
    }
    Ok(first_outside(network, shape, lower, upper, work))
}

// Whether both limit buffers have a byte for each cell.
fn has_room(cells: usize, lower: usize, upper: usize) -> bool
    ensures { result ≡ roomy cells (lower ∷ upper ∷ []) }
{
    cells <= lower && cells <= upper
}

// Goes over the cells in order, up to the first outside.
fn first_outside(
    network: &[u8],
    shape: Shape,
    lower: &[u8],
    upper: &[u8],
    work: &mut [u8],
) -> Option<Outside>
    requires { Checkable shape network.now lower.now upper.now work.old }
    ensures { Searched shape network.now lower.now upper.now work.old work.new result }
{
    let cells = shape.cells();
    let limits = lower[..cells].iter().zip(&upper[..cells]);
    for (cell, (least, greatest)) in limits.enumerate() {
        let grade = network_run::grade_at(network, shape, cell, work);
        if !grade_within(*least, *greatest, grade) {
            return Some(Outside { cell, grade });
        }
    }
    None
}

fn grade_within(lower: u8, upper: u8, grade: u8) -> bool
    ensures { result ≡ (leb lower grade && leb grade upper) }
{
    (lower..=upper).contains(&grade)
}
