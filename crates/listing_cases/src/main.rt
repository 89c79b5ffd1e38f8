// Prints, by the functions that `grades` uses, a line of each kind of record, record numbers on both
// sides of a byte's limit, a whole listing, and each refusal.
#![tactic(auto)]

ghost use Rattle.std.specs.Prelude.{◌<◌, ◌≡◌, true};
ghost use Rattle.shape.specs.Shapes.{is_sound};

use listing::{put_listing, put_record, put_refusal};
use rules::Refusal;
use shape::Shape;

// Standard output's number.
const STDOUT: i32 = 1;

// Conditions of eight, eight, eight and two values, and sixteen grades.
fn wide() -> Shape
    ensures { is_sound result ≡ true }
{
    Shape {
        n: 4,
        c0: 8,
        c1: 8,
        c2: 8,
        c3: 2,
        c4: 0,
        c5: 0,
        c6: 0,
        c7: 0,
        m: 16,
    }
}

fn show_record(r: usize, bytes: &[u8; 16])
    requires { r < 65536 }
{
    let mut out = [0u8; 62];
    let n = put_record(&mut out, 0, r, bytes, wide());
    io::write_all(STDOUT, &out[..n]);
}

fn show_refusal(refusal: Refusal) {
    let mut out = [0u8; 14];
    let n = put_refusal(&mut out, refusal);
    io::write_all(STDOUT, &out[..n]);
}

// The constant 15, the literal 10 9 of condition 3, and the greater of the two.
fn show_listing() {
    let mut network = [0u8; 48];
    network[1] = 15;
    network[2] = 15;
    network[16] = 1;
    network[17] = 3;
    network[18] = 10;
    network[24] = 10;
    network[25] = 9;
    network[32] = 3;
    network[34] = 15;
    network[38] = 1;
    let mut out = [0u8; 200];
    let n = put_listing(&mut out, &network, 3, wide());
    io::write_all(STDOUT, &out[..n]);
}

fn show_refusals() {
    for refusal in [
        Refusal::FileLength,
        Refusal::RecordBytes,
        Refusal::RecordOrder,
        Refusal::ShapeRange,
        Refusal::GradeLimits,
        Refusal::CellValues,
        Refusal::Sets,
        Refusal::NoJoin,
        Refusal::FirstBlock,
        Refusal::ShortBuffer,
        Refusal::Network,
        Refusal::CellNumber,
    ] {
        show_refusal(refusal);
    }
}

fn main() {
    // a constant; a literal of eight values, and one of two
    show_record(0, &[0, 15, 0, 0, 0, 0, 0, 0, 0, 0, 0, 0, 0, 0, 0, 0]);
    show_record(9, &[1, 2, 0, 0, 0, 0, 0, 0, 0, 9, 10, 11, 15, 1, 0, 12]);
    show_record(10, &[1, 3, 0, 0, 0, 0, 0, 0, 7, 0, 0, 0, 0, 0, 0, 0]);
    // gates of records 255, 256 and 3,065
    show_record(256, &[2, 0, 0, 0, 255, 0, 254, 0, 0, 0, 0, 0, 0, 0, 0, 0]);
    show_record(257, &[3, 0, 0, 0, 0, 1, 255, 0, 0, 0, 0, 0, 0, 0, 0, 0]);
    show_record(3066, &[3, 0, 0, 0, 249, 11, 0, 1, 0, 0, 0, 0, 0, 0, 0, 0]);
    show_listing();
    show_refusals();
}
