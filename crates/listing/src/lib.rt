// What the program "grades" prints, laid into a lent buffer. Each function writes from `start` on and
// gives the place after its last byte.
#![tactic(auto)]

ghost use Rattle.std.specs.Prelude.{◌+◌, ◌*◌, ◌≤◌, ◌<◌, ◌≡◌, true, ◌++◌, length};
ghost use Rattle.rules.specs.Bytes.{at, word, tabulate};
ghost use Rattle.rules.specs.Cell.{card};
ghost use Rattle.rules.specs.Network.{constant, literal, record_of, records_from};
ghost use Rattle.rules.specs.Listing.{decimal, field, fields, record_text, record_line, lines_from, listing, refusal_line};
ghost use Rattle.shape.specs.Shapes.{places_of, is_sound};
ghost use Rattle.listing.specs.Putting.{Put, grade_bytes, answer_line};

use rules::kinds::NetworkKind;
use rules::{Gate, RECORD, Refusal};
use shape::Shape;

fn put(out: &mut [u8], start: usize, text: &[u8]) -> usize
    requires { start + length text.now ≤ length out.old }
    ensures { Put out.old start text.now (length text.now) result out.new }
{
    let next = start + text.len();
    out[start..next].copy_from_slice(text);
    next
}

fn put_number(out: &mut [u8], start: usize, x: u16) -> usize
    requires { start + 5 ≤ length out.old }
    ensures { Put out.old start (decimal x) 5 result out.new }
{
    let mut digits = [0u8; 20];
    let n = io::decimal(u64::from(x), &mut digits);
    put(out, start, &digits[..n])
}

fn put_field(out: &mut [u8], start: usize, x: u16) -> usize
    requires { start + 6 ≤ length out.old }
    ensures { Put out.old start (field x) 6 result out.new }
{
    let next = put(out, start, b" ");
    put_number(out, next, x)
}

// A number of two bytes, the low byte first.
fn put_word(out: &mut [u8], start: usize, bytes: [u8; 2]) -> usize
    requires { start + 6 ≤ length out.old }
    ensures { Put out.old start (field (word bytes 0)) 6 result out.new }
{
    put_field(out, start, u16::from_le_bytes(bytes))
}

fn put_constant(out: &mut [u8], start: usize, grade: u8) -> usize
    requires { start + 8 ≤ length out.old }
    ensures { Put out.old start (record_text (constant grade)) 8 result out.new }
{
    let next = put(out, start, b" C");
    put_field(out, next, u16::from(grade))
}

fn put_grades(out: &mut [u8], start: usize, grades: &[u8]) -> usize
    requires { start + 6 * length grades.now ≤ length out.old }
    ensures { Put out.old start (fields grades.now) (6 * length grades.now) result out.new }
{
    let mut next = start;
    for &grade in grades {
        next = put_field(out, next, u16::from(grade));
    }
    next
}

fn put_literal(out: &mut [u8], start: usize, bytes: &[u8; RECORD], shape: Shape) -> usize
    requires { (is_sound shape ≡ true) × (start + 56 ≤ length out.old) }
    ensures { Put out.old start (record_text (literal (at bytes.now 1) (tabulate (card (places_of shape) (at bytes.now 1)) (grade_bytes bytes.now)))) 56 result out.new }
{
    let named = put(out, start, b" L");
    let next = put_field(out, named, u16::from(bytes[1]));
    let values = shape.cardinality(usize::from(bytes[1]));
    put_grades(out, next, &bytes[8..8 + values])
}

fn put_gate(out: &mut [u8], start: usize, name: &[u8; 4], bytes: &[u8; RECORD]) -> usize
    requires { start + 16 ≤ length out.old }
    ensures { Put out.old start (name.now ++ (field (word bytes.now 4) ++ field (word bytes.now 6))) 16 result out.new }
{
    let named = put(out, start, name);
    let next = put_word(out, named, [bytes[4], bytes[5]]);
    put_word(out, next, [bytes[6], bytes[7]])
}

// What follows a record's number.
fn put_text(out: &mut [u8], start: usize, bytes: &[u8; RECORD], shape: Shape) -> usize
    requires { (is_sound shape ≡ true) × (start + 56 ≤ length out.old) }
    ensures { Put out.old start (record_text (record_of (places_of shape) bytes.now)) 56 result out.new }
{
    match NetworkKind::try_from(bytes[0]) {
        Ok(NetworkKind::Constant) => put_constant(out, start, bytes[1]),
        Ok(NetworkKind::Literal) => put_literal(out, start, bytes, shape),
        Ok(NetworkKind::Gate(Gate::Min)) => put_gate(out, start, b" MIN", bytes),
        // A byte that says no kind stands in no sound network.
        Ok(NetworkKind::Gate(Gate::Max)) | Err(_) => put_gate(out, start, b" MAX", bytes),
    }
}

// The line of record number r, from its sixteen bytes: at most 62 bytes.
pub fn put_record(
    out: &mut [u8],
    start: usize,
    r: usize,
    bytes: &[u8; RECORD],
    shape: Shape,
) -> usize
    requires { (r < 65536) × (is_sound shape ≡ true) × (start + 62 ≤ length out.old) }
    ensures { Put out.old start (record_line r (record_of (places_of shape) bytes.now)) 62 result out.new }
{
    let numbered = put_number(out, start, r as u16);
    let next = put_text(out, numbered, bytes, shape);
    put(out, next, b"\n")
}

// The lines of the first `count` records of a network.
fn put_records(out: &mut [u8], network: &[u8], count: usize, shape: Shape) -> usize
    requires { (count ≤ 4096) × (16 * count ≤ length network.now) × (is_sound shape ≡ true) × (62 * count ≤ length out.old) }
    ensures { Put out.old 0 (lines_from 0 (records_from (places_of shape) network.now 0 count)) (62 * count) result out.new }
{
    let mut next = 0;
    for (r, bytes) in network.as_chunks::<RECORD>().0[..count].iter().enumerate() {
        next = put_record(out, next, r, bytes, shape);
    }
    next
}

// A text of eight bytes, a number, and the line's end.
fn put_answer(out: &mut [u8], start: usize, name: &[u8; 8], x: u16) -> usize
    requires { start + 14 ≤ length out.old }
    ensures { Put out.old start (answer_line name.now x) 14 result out.new }
{
    let named = put(out, start, name);
    let next = put_number(out, named, x);
    put(out, next, b"\n")
}

// The whole listing of a network.
pub fn put_listing(out: &mut [u8], network: &[u8], count: usize, shape: Shape) -> usize
    requires { (count ≤ 4096) × (16 * count ≤ length network.now) × (is_sound shape ≡ true) × (62 * count + 14 ≤ length out.old) }
    ensures { Put out.old 0 (listing (records_from (places_of shape) network.now 0 count)) (62 * count + 14) result out.new }
{
    let next = put_records(out, network, count, shape);
    put_answer(out, next, b"records ", count as u16)
}

// A refusal's line.
pub fn put_refusal(out: &mut [u8], refusal: Refusal) -> usize
    requires { 14 ≤ length out.old }
    ensures { Put out.old 0 (refusal_line refusal) 14 result out.new }
{
    put_answer(out, 0, b"refused ", refusal.number() as u16)
}
