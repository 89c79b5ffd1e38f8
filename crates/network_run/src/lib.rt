// The grades of a sound network's records at a cell.
#![tactic(auto)]

ghost use Rattle.std.specs.Prelude.{◌≡◌, ◌<◌, ℕ};
ghost use Rattle.rules.specs.Bytes.{at, word};
ghost use Rattle.rules.specs.Cell.{Positive, value};
ghost use Rattle.shape.specs.Shapes.{places_of};
ghost use Rattle.network_run.specs.Grades.{byte_grade, Readable, Ready, Ran, Graded};

use rules::kinds::NetworkKind;
use rules::{Gate, PLACES, RECORD};
use shape::Shape;

// The values of the eight conditions at a cell, each in the place of its cardinality.
fn values_at(ks: [u8; PLACES], cell: usize) -> [u8; PLACES]
    requires { Positive ks }
    ensures { (i : ℕ) → at result i ≡ value ks cell i }
{
    let mut values = ks;
    let mut rest = cell;
    for place in values.iter_mut() {
        let card = usize::from(*place);
        *place = (rest % card) as u8;
        rest /= card;
    }
    values
}

// The number of two bytes, the low byte first.
fn word(r: &[u8; RECORD], j: usize) -> usize
    requires { j < 15 }
    ensures { result ≡ word r.now j }
{
    usize::from(u16::from_le_bytes([r[j], r[j + 1]]))
}

// The grade of the record r, from the grades of the records before it. A gate that is not min is
// max: with one arm for both, and one for bytes that say no kind, a gate takes twice the
// instructions.
fn record_grade(r: &[u8; RECORD], values: &[u8; PLACES], done: &[u8]) -> u8
    requires { Readable values.now done.now r.now }
    ensures { result ≡ byte_grade (at values.now) done.now r.now }
{
    match NetworkKind::try_from(r[0]) {
        Ok(NetworkKind::Constant) => r[1],
        Ok(NetworkKind::Literal) => {
            let value = usize::from(values[usize::from(r[1])]);
            r[8 + value]
        }
        Ok(NetworkKind::Gate(Gate::Min)) => done[word(r, 4)].min(done[word(r, 6)]),
        _ => done[word(r, 4)].max(done[word(r, 6)]),
    }
}

// Writes the grade of every record at a cell, in order, to the front of the work buffer.
fn run(network: &[u8], shape: Shape, cell: usize, work: &mut [u8])
    requires { Ready shape network.now work.old }
    ensures { Ran (places_of shape) network.now cell work.old work.new }
{
    let values = values_at(shape.places(), cell);
    // By number: the grades before are read while one is written.
    for (k, r) in network.as_chunks::<RECORD>().0.iter().enumerate() {
        let grade = record_grade(r, &values, &work[..k]);
        work[k] = grade;
    }
}

// The grade of a sound network at a cell.
pub fn grade_at(network: &[u8], shape: Shape, cell: usize, work: &mut [u8]) -> u8
    requires { Ready shape network.now work.old }
    ensures { Graded (places_of shape) network.now cell work.old work.new result }
{
    run(network, shape, cell, work);
    let last = network.len() / RECORD - 1;
    work[last]
}
