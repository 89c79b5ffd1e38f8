// The grades of a sound network at each cell of a list.
#![tactic(auto)]

ghost use Rattle.network_visits.specs.Visiting.{Visitable, Visited, ListReady, VisitedEach};

use rules::NO_CELL;
use shape::Shape;

// The byte for one number of a list: the grade at that cell, which is run if it is not known from
// an earlier place. In what is known, the byte that no grade is stands for nothing yet: an Option
// takes two bytes, and the stack that the C header asks for has no room for 1024 of them. The shape is lent: by value
// its bytes would be laid out anew for each number, known or not.
fn visit(
    network: &[u8],
    shape: &Shape,
    cells: usize,
    cell: usize,
    known: &mut [u8; 1024],
    work: &mut [u8],
) -> u8
    requires { Visitable shape.now network.now cells known.old work.old }
    ensures { Visited shape.now network.now cell work.old result known.new work.new }
{
    if cells <= cell {
        return NO_CELL;
    }
    let before = known[cell];
    if before != NO_CELL {
        return before;
    }
    let grade = network_run::grade_at(network, *shape, cell, work);
    known[cell] = grade;
    grade
}

// Writes the byte for each number of a list. Each cell that the list has is run once.
pub fn grade_each(network: &[u8], shape: Shape, cells: &[u16], grades: &mut [u8], work: &mut [u8])
    requires { ListReady shape network.now cells.now grades.old work.old }
    ensures { VisitedEach shape network.now cells.now grades.old work.old grades.new work.new }
{
    let count = shape.cells();
    let mut known = [NO_CELL; 1024];
    // Of what is written through an `iter_mut` in a `zip` a proof knows nothing.
    for (i, cell) in cells.iter().enumerate() {
        let grade = visit(network, &shape, count, usize::from(*cell), &mut known, work);
        grades[i] = grade;
    }
}
