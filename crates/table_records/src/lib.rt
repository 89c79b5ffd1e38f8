// The records of a table file, judged by 01's rows. The two editions of files differ in their cell
// records alone.
#![tactic(auto)]

ghost use Rattle.std.specs.Prelude.{◌≡◌, ◌&&◌, ◌+◌, ◌*◌, ◌/◌, ◌≤◌, ◌<◌, leb, ltb, eqb, length, set};
ghost use Rattle.rules.specs.Bytes.{at, all, zeros};
ghost use Rattle.rules.specs.Cell.{cells, card};
ghost use Rattle.rules.specs.TableFile.{condition_record, grades_record, spare_byte, cell_clear, cell_sound, cell_refusal, cell_record, table_record, table_records, start};
ghost use Rattle.rules.specs.Verdict.{verdict_of};
ghost use Rattle.shape.specs.Shapes.{cards_of, places_of, shape_from};
ghost use Rattle.table_records.specs.Records.{seen_of, InRange};

use rules::kinds::TableKind;
use rules::{Edition, PLACES, RECORD, Refusal};
use shape::Shape;
use tables::tests;

// What the records so far say: conditions and grades in a shape, m being 0 before the grades
// record, and the number after that of the last cell.
#[derive(Clone, Copy)]
pub struct Seen {
    pub shape: Shape,
    pub next: usize,
}

// A condition comes before the grades record, and has the next number.
fn condition_in_order(shape: Shape, number: u8) -> bool
    ensures { result ≡ (eqb shape.m 0 && eqb number shape.n) }
{
    shape.m == 0 && number == shape.n
}

// One condition more is within the shape's limits.
fn condition_fits(shape: Shape, card: u8) -> bool
    requires { cells (places_of shape) ≤ 1024 }
    ensures { result ≡ (ltb shape.n 8 && ((leb 2 card && leb card 8) && leb (cells (places_of shape) * card) 1024)) }
{
    shape.n < Shape::MAX_CONDITIONS
        && (2..=Shape::MAX_CARDINALITY).contains(&card)
        && shape.cells() * usize::from(card) <= Shape::MAX_CELLS
}

fn with_condition(shape: Shape, card: u8) -> Shape
    requires { shape.n < 8 }
    ensures { result ≡ shape_from (shape.n + 1) (set (cards_of shape) shape.n card) shape.m }
{
    let mut cards = shape.cards();
    cards[usize::from(shape.n)] = card;
    Shape {
        n: shape.n + 1,
        c0: cards[0],
        c1: cards[1],
        c2: cards[2],
        c3: cards[3],
        c4: cards[4],
        c5: cards[5],
        c6: cards[6],
        c7: cards[7],
        m: shape.m,
    }
}

fn condition(s: Seen, r: &[u8; RECORD]) -> Result<Seen, Refusal>
    requires { InRange (seen_of s) }
    ensures { verdict_of seen_of result ≡ condition_record (seen_of s) r.now }
{
    if !tests::zero_between(r, 3, RECORD) {
        return Err(Refusal::RecordBytes);
    }
    if !condition_in_order(s.shape, r[1]) {
        return Err(Refusal::RecordOrder);
    }
    if !condition_fits(s.shape, r[2]) {
        return Err(Refusal::ShapeRange);
    }
    let shape = with_condition(s.shape, r[2]);
    Ok(Seen { shape, ..s })
}

fn grades(s: Seen, r: &[u8; RECORD]) -> Result<Seen, Refusal>
    ensures { verdict_of seen_of result ≡ grades_record (seen_of s) r.now }
{
    if !tests::zero_between(r, 2, RECORD) {
        return Err(Refusal::RecordBytes);
    }
    if s.shape.m != 0 {
        return Err(Refusal::RecordOrder);
    }
    let m = r[1];
    if !(2..=Shape::MAX_GRADES).contains(&m) {
        return Err(Refusal::ShapeRange);
    }
    let shape = Shape { m, ..s.shape };
    Ok(Seen { shape, ..s })
}

// Whether each value is below its condition's cardinality; 0 where there is no condition.
fn values_below(ks: [u8; PLACES], r: &[u8; RECORD]) -> bool
    ensures { result ≡ all 8 (λ i. ltb (at r.now (8 + i)) (card ks i)) }
{
    r[8..].iter().zip(&ks).all(|(value, k)| value < k)
}

// Whether bytes 4 to 7 are zero: one number, which takes one load.
fn middle_zero(r: &[u8; RECORD]) -> bool
    ensures { result ≡ zeros r.now 4 8 }
{
    u32::from_le_bytes([r[4], r[5], r[6], r[7]]) == 0
}

// The byte of a cell record that has no meaning in an edition, beside those.
fn spare_byte(edition: Edition) -> usize
    ensures { result ≡ spare_byte edition }
{
    match edition {
        Edition::Ours => 3,
        Edition::Spreadsheet => 1,
    }
}

// The bytes of a cell record before its values that must be zero.
fn cell_clear(r: &[u8; RECORD], edition: Edition) -> bool
    ensures { result ≡ cell_clear edition r.now }
{
    r[spare_byte(edition)] == 0 && middle_zero(r)
}

// All of its bytes that must be zero, when n conditions were read.
fn cell_zeros(n: u8, r: &[u8; RECORD], edition: Edition) -> bool
    requires { n ≤ 8 }
    ensures { result ≡ (cell_clear edition r.now && zeros r.now (8 + n) 16) }
{
    cell_clear(r, edition) && tests::zero_between(r, 8 + usize::from(n), RECORD)
}

fn limits_in_order(lower: u8, upper: u8, m: u8) -> bool
    ensures { result ≡ (leb lower upper && ltb upper m) }
{
    lower <= upper && upper < m
}

// What an edition asks of a cell's limits, or of its set of grades.
fn cell_sound(m: u8, r: &[u8; RECORD], edition: Edition) -> bool
    ensures { result ≡ cell_sound edition m r.now }
{
    match edition {
        Edition::Ours => limits_in_order(r[1], r[2], m),
        Edition::Spreadsheet => grade_sets::is_sound(u16::from_le_bytes([r[2], r[3]]), m),
    }
}

// The refusal of a cell whose grades are not so.
fn cell_refusal(edition: Edition) -> Refusal
    ensures { result ≡ cell_refusal edition }
{
    match edition {
        Edition::Ours => Refusal::GradeLimits,
        Edition::Spreadsheet => Refusal::GradeSet,
    }
}

fn cell(s: Seen, r: &[u8; RECORD], edition: Edition) -> Result<Seen, Refusal>
    requires { InRange (seen_of s) }
    ensures { verdict_of seen_of result ≡ cell_record edition (seen_of s) r.now }
{
    let shape = s.shape;
    if !cell_zeros(shape.n, r, edition) {
        return Err(Refusal::RecordBytes);
    }
    if shape.m == 0 {
        return Err(Refusal::RecordOrder);
    }
    let ks = shape.places();
    if !values_below(ks, r) {
        return Err(Refusal::CellValues);
    }
    let number = places::number(ks, r, 8);
    if number < s.next {
        return Err(Refusal::CellValues);
    }
    if !cell_sound(shape.m, r, edition) {
        return Err(cell_refusal(edition));
    }
    Ok(Seen {
        next: number + 1,
        ..s
    })
}

// Most records are cells, so these are asked for first. The cell kind of the other edition is as unknown as any.
fn judge_record(s: Seen, r: &[u8; RECORD], edition: Edition) -> Result<Seen, Refusal>
    requires { InRange (seen_of s) }
    ensures { verdict_of seen_of result ≡ table_record edition (seen_of s) r.now }
{
    if r[0] == u8::from(TableKind::Cell(edition)) {
        return cell(s, r, edition);
    }
    match TableKind::try_from(r[0]) {
        Ok(TableKind::Condition) => condition(s, r),
        Ok(TableKind::Grades) => grades(s, r),
        _ => Err(Refusal::RecordBytes),
    }
}

fn first_seen() -> Seen
    ensures { seen_of result ≡ start }
{
    Seen {
        shape: Shape {
            n: 0,
            c0: 0,
            c1: 0,
            c2: 0,
            c3: 0,
            c4: 0,
            c5: 0,
            c6: 0,
            c7: 0,
            m: 0,
        },
        next: 0,
    }
}

// The verdict on all records of a file of an edition, one after the other. With `?` what was seen would be taken apart
// and put together for each.
pub fn records(file: &[u8], edition: Edition) -> Result<Seen, Refusal>
    ensures { verdict_of seen_of result ≡ table_records edition file.now 0 (length file.now / 16) start }
{
    let mut s = first_seen();
    for r in file.as_chunks::<RECORD>().0 {
        match judge_record(s, r, edition) {
            Ok(seen) => s = seen,
            Err(refusal) => return Err(refusal),
        }
    }
    if s.shape.m == 0 {
        return Err(Refusal::RecordOrder);
    }
    Ok(s)
}
