// Runs the two join calls on document 01's tables E and F and on an input for each refusal that a
// join can meet, and prints what it got: the answer, and both output buffers whole.
#![tactic(auto)]

use rules::{Gate, Refusal};
use shape::Shape;

fn show(name: &[u8], answer: Result<(), Refusal>, lower: &[u8], upper: &[u8]) {
    printing::text(name);
    printing::text(b": ");
    match answer {
        Ok(()) => printing::text(b"limits"),
        Err(refusal) => printing::refused(refusal),
    }
    printing::text(b", buffers");
    printing::limits(lower, upper);
    printing::text(b"\n");
}

// The first block's limits, to two buffers that hold 99 everywhere.
fn first_to(
    name: &[u8],
    shape: Shape,
    lower: &[u8],
    upper: &[u8],
    gate: Gate,
    s: u8,
    t: u8,
    to_lower: &mut [u8],
) {
    let mut to_upper = [99u8; 7];
    let answer = join::join_first(shape, lower, upper, gate, s, t, to_lower, &mut to_upper);
    show(name, answer, to_lower, &to_upper);
}

fn first(name: &[u8], shape: Shape, lower: &[u8], upper: &[u8], gate: Gate, s: u8, t: u8) {
    let mut to_lower = [99u8; 7];
    first_to(name, shape, lower, upper, gate, s, t, &mut to_lower);
}

// The second block's limits with the first block g, to buffers as above.
fn second(name: &[u8], shape: Shape, lower: &[u8], upper: &[u8], gate: Gate, g: &[u8]) {
    let mut to_lower = [99u8; 7];
    let mut to_upper = [99u8; 7];
    let answer = join::join_second(
        shape,
        lower,
        upper,
        gate,
        1,
        2,
        g,
        &mut to_lower,
        &mut to_upper,
    );
    show(name, answer, &to_lower, &to_upper);
}

// A shape of two conditions, judged by nobody yet.
fn pair(c0: u8, c1: u8, m: u8) -> Shape {
    Shape {
        n: 2,
        c0,
        c1,
        c2: 0,
        c3: 0,
        c4: 0,
        c5: 0,
        c6: 0,
        c7: 0,
        m,
    }
}

// A table of two conditions with two values and two grades, one for each cell, by both gates.
fn square(max: &[u8], min: &[u8], grades: &[u8]) {
    first(max, pair(2, 2, 2), grades, grades, Gate::Max, 1, 2);
    first(min, pair(2, 2, 2), grades, grades, Gate::Min, 1, 2);
}

// 01's table F, the example of 000.
const F_LOWER: [u8; 6] = [1, 0, 0, 0, 2, 1];

const F_UPPER: [u8; 6] = [2, 1, 2, 0, 2, 2];

fn first_of_f(name: &[u8], gate: Gate, s: u8, t: u8) {
    first(name, pair(2, 3, 3), &F_LOWER, &F_UPPER, gate, s, t);
}

fn second_of_f(name: &[u8], gate: Gate, g: &[u8]) {
    second(name, pair(2, 3, 3), &F_LOWER, &F_UPPER, gate, g);
}

fn joins() {
    square(b"E, max", b"E, min", &[0, 1, 1, 0]);
    square(b"either, max", b"either, min", &[0, 1, 1, 1]);
    square(b"both, max", b"both, min", &[0, 0, 0, 1]);
    first_of_f(b"F, max, first block", Gate::Max, 1, 2);
    second_of_f(b"F, max, second block", Gate::Max, &[2, 0, 2, 0, 2, 0]);
    first_of_f(b"F, min, first block", Gate::Min, 1, 2);
    second_of_f(b"F, min, second block", Gate::Min, &[2, 1, 2, 1, 2, 1]);
}

fn shapes_and_buffers() {
    first(
        b"cardinality 9",
        pair(9, 3, 3),
        &F_LOWER,
        &F_UPPER,
        Gate::Max,
        1,
        2,
    );
    first(
        b"one grade",
        pair(2, 3, 1),
        &F_LOWER,
        &F_UPPER,
        Gate::Max,
        1,
        2,
    );
    let mut short = [99u8; 5];
    first_to(
        b"output of five bytes",
        pair(2, 3, 3),
        &F_LOWER,
        &F_UPPER,
        Gate::Max,
        0,
        2,
        &mut short,
    );
    first(
        b"limits of five bytes",
        pair(2, 3, 3),
        &F_LOWER,
        &[2, 1, 2, 0, 2],
        Gate::Max,
        1,
        2,
    );
    second_of_f(b"g of five bytes", Gate::Max, &[2, 0, 2, 0, 2]);
}

fn limits_and_sets() {
    first(
        b"lower above upper",
        pair(2, 3, 3),
        &F_LOWER,
        &[2, 1, 2, 0, 1, 2],
        Gate::Max,
        0,
        2,
    );
    first(
        b"upper not a grade",
        pair(2, 3, 3),
        &F_LOWER,
        &[2, 1, 3, 0, 2, 2],
        Gate::Max,
        1,
        2,
    );
    first_of_f(b"S empty", Gate::Max, 0, 2);
    first_of_f(b"T empty", Gate::Max, 1, 0);
    first_of_f(b"a condition in both sets", Gate::Max, 1, 3);
    first_of_f(b"a condition that is not there", Gate::Max, 1, 4);
}

fn first_blocks() {
    second(
        b"no join",
        pair(2, 2, 2),
        &[0, 1, 1, 0],
        &[0, 1, 1, 0],
        Gate::Min,
        &[9, 9, 9, 9],
    );
    second_of_f(b"g above its limits", Gate::Max, &[2, 1, 2, 1, 2, 1]);
    second_of_f(b"g not a grade", Gate::Max, &[3, 0, 3, 0, 3, 0]);
    second_of_f(b"g that depends on T", Gate::Max, &[2, 0, 1, 0, 2, 0]);
}

fn main() {
    joins();
    shapes_and_buffers();
    limits_and_sets();
    first_blocks();
}
