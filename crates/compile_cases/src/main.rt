// Compiles document 01's small tables, the largest shape, and a table for each refusal, and prints
// what it got: the lengths of the two buffers lent; the number of records and the last one's bytes,
// or the refusal's number; then whether each buffer kept the bytes that the call had to leave: all
// of them after a refusal, else those past the records and, of the work buffer, those past sixteen
// for each cell. Both buffers hold 99 everywhere before. Behind that, what a forecast of the same table
// says, with the same work buffer and no network buffer. Last, tables under settings other than the usual, by their
// byte.
#![tactic(auto)]

ghost use Rattle.std.specs.Prelude.{◌<◌};

use compile::Figures;
use printing::{number, refused, text};
use rules::Refusal;
use shape::Shape;

// The bytes of a record, and of the work for a cell.
const RECORD: usize = 16;

const WORK: usize = 32;

fn show_number(name: &[u8], x: usize) {
    text(name);
    number(x);
}

fn show_byte(x: u8) {
    show_number(b" ", x as usize);
}

// The last of so many records.
fn show_last(network: &[u8], count: usize) {
    text(b", last");
    for (i, &byte) in network.iter().enumerate() {
        if i / RECORD + 1 == count {
            show_byte(byte);
        }
    }
}

// Whether all bytes past those of so many records, or of the work for so many cells, still hold 99. Each has `unit` bytes.
fn kept(buffer: &[u8], unit: usize, count: usize) -> bool
    requires { 0 < unit }
{
    buffer
        .chunks(unit)
        .skip(count)
        .all(|bytes| bytes.iter().all(|&byte| byte == 99))
}

fn show_kept(name: &[u8], buffer: &[u8], unit: usize, count: usize)
    requires { 0 < unit }
{
    text(name);
    if kept(buffer, unit, count) {
        text(b" kept");
    } else {
        text(b" changed");
    }
}

fn show_answer(answer: Result<usize, Refusal>, shape: Shape, work: &[u8], network: &[u8]) {
    match answer {
        Err(refusal) => {
            refused(refusal);
            show_kept(b", work", work, WORK, 0);
            show_kept(b", network", network, RECORD, 0);
        }
        Ok(count) => {
            show_number(b"records ", count);
            show_last(network, count);
            show_kept(b", work", work, WORK, shape.cells());
            show_kept(b", network", network, RECORD, count);
        }
    }
}

fn show_forecast(answer: Result<Figures, Refusal>, shape: Shape, work: &[u8]) {
    text(b"; forecast ");
    match answer {
        Err(refusal) => {
            refused(refusal);
            show_kept(b", work", work, WORK, 0);
        }
        Ok(Figures { records, depth }) => {
            show_number(b"records ", records);
            show_number(b", depth ", depth);
            show_kept(b", work", work, WORK, shape.cells());
        }
    }
}

fn compile_into(
    name: &[u8],
    shape: Shape,
    lower: &[u8],
    upper: &[u8],
    work: &mut [u8],
    network: &mut [u8],
) {
    text(name);
    show_number(b", work ", work.len());
    show_number(b", network ", network.len());
    text(b": ");
    let answer = compile::compile(shape, lower, upper, work, network);
    show_answer(answer, shape, work, network);
    let forecast = compile::forecast(shape, lower, upper, work);
    show_forecast(forecast, shape, work);
    text(b"\n");
}

// With so many bytes of buffers that are as long as the largest table needs.
fn attempt(
    name: &[u8],
    shape: Shape,
    lower: &[u8],
    upper: &[u8],
    work_room: usize,
    network_room: usize,
) {
    let mut work = [99u8; 32768];
    let mut network = [99u8; 49072];
    if work_room <= 32768 && network_room <= 49072 {
        compile_into(
            name,
            shape,
            lower,
            upper,
            &mut work[..work_room],
            &mut network[..network_room],
        );
    }
}

// A shape of at most four conditions, judged by nobody yet.
fn shape_of(n: u8, cards: [u8; 4], m: u8) -> Shape {
    Shape {
        n,
        c0: cards[0],
        c1: cards[1],
        c2: cards[2],
        c3: cards[3],
        c4: 0,
        c5: 0,
        c6: 0,
        c7: 0,
        m,
    }
}

fn next(grade: u8, top: u8) -> u8 {
    if grade < top { grade + 1 } else { 0 }
}

// One condition more, whose values lie a step apart: each has the grade that comes next after that
// of the value before. From zeros, with the conditions by rising step, a cell's grade is then the sum
// of its values modulo top + 1. By index: a grade is read that was written a step before, in the same table.
fn add_condition(grades: &mut [u8], step: usize, top: u8) {
    for c in step..grades.len() {
        grades[c] = next(grades[c - step], top);
    }
}

fn one_cell(name: &[u8], work: usize, network: usize) {
    attempt(name, shape_of(0, [0; 4], 4), &[1], &[3], work, network);
}

fn two_cells(name: &[u8], lower: &[u8], upper: &[u8]) {
    attempt(name, shape_of(1, [2, 0, 0, 0], 2), lower, upper, 65, 17);
}

// Two conditions of two values, two grades.
fn square(name: &[u8], lower: &[u8], upper: &[u8], work: usize, network: usize) {
    attempt(
        name,
        shape_of(2, [2, 2, 0, 0], 2),
        lower,
        upper,
        work,
        network,
    );
}

const E: [u8; 4] = [0, 1, 1, 0];

const EITHER: [u8; 4] = [0, 1, 1, 1];

const BOTH: [u8; 4] = [0, 0, 0, 1];

fn table_e(work: usize, network: usize) {
    square(b"E", &E, &E, work, network);
}

fn small() {
    one_cell(b"one cell", 32, 16);
    one_cell(b"one cell", 33, 17);
    one_cell(b"one cell", 32, 15);
    one_cell(b"one cell", 31, 16);
    two_cells(b"any grades", &[0, 0], &[1, 1]);
    two_cells(b"0 and 1", &[0, 1], &[0, 1]);
    square(b"either", &EITHER, &EITHER, 129, 113);
    square(b"both", &BOTH, &BOTH, 129, 113);
    square(b"both to either", &BOTH, &EITHER, 129, 113);
    table_e(128, 112);
    table_e(134, 120);
    table_e(128, 111);
    table_e(127, 112);
    attempt(
        b"F",
        shape_of(2, [2, 3, 0, 0], 3),
        &[1, 0, 0, 0, 2, 1],
        &[2, 1, 2, 0, 2, 2],
        192,
        208,
    );
}

fn parity(work: usize, network: usize) {
    let mut grades = [0u8; 8];
    add_condition(&mut grades, 1, 1);
    add_condition(&mut grades, 2, 1);
    add_condition(&mut grades, 4, 1);
    attempt(
        b"parity of three",
        shape_of(3, [2, 2, 2, 0], 2),
        &grades,
        &grades,
        work,
        network,
    );
}

fn parities() {
    parity(256, 304);
    parity(258, 310);
    parity(256, 303);
    parity(255, 304);
}

// Sums modulo 16 of three conditions of eight values and one of fewer.
fn large(name: &[u8], last: u8, work: usize, network: usize) {
    let mut grades = [0u8; 1024];
    add_condition(&mut grades, 1, 15);
    add_condition(&mut grades, 8, 15);
    add_condition(&mut grades, 64, 15);
    add_condition(&mut grades, 512, 15);
    attempt(
        name,
        shape_of(4, [8, 8, 8, last], 16),
        &grades,
        &grades,
        work,
        network,
    );
}

fn largest() {
    large(b"8 8 8 2", 2, 32768, 49072);
    large(b"8 8 8 2", 2, 32768, 49071);
    large(b"8 8 8 2", 2, 32767, 49072);
    large(b"8 8 8 3", 3, 32768, 49072);
}

fn refusals() {
    attempt(
        b"cardinality 1",
        shape_of(2, [2, 1, 0, 0], 2),
        &E,
        &E,
        128,
        112,
    );
    square(b"E, lower of 3 bytes", &[0, 1, 1], &E, 128, 112);
    square(b"E, upper of 3 bytes", &E, &[0, 1, 1], 128, 112);
    square(b"lower above upper", &EITHER, &E, 128, 112);
    square(b"upper is m", &E, &[0, 1, 1, 2], 128, 112);
}

// The first of several rows that apply.
fn orders() {
    attempt(
        b"one grade, lower above upper",
        shape_of(2, [2, 2, 0, 0], 1),
        &EITHER,
        &E,
        127,
        111,
    );
    square(b"lower above upper", &EITHER, &E, 128, 111);
    square(b"lower above upper", &EITHER, &E, 127, 112);
    square(
        b"lower above upper, upper of 3 bytes",
        &EITHER,
        &[0, 1, 0],
        128,
        112,
    );
}

// Two conditions of two values, three grades: no two sets join, and a weak join counts. The buffers are just as
// long as the calls ask for.
fn weak(name: &[u8], lower: &[u8], upper: &[u8]) {
    attempt(name, shape_of(2, [2, 2, 0, 0], 3), lower, upper, 128, 112);
}

fn weak_joins() {
    weak(b"weak at condition 0", &[0, 1, 1, 2], &[0, 1, 1, 2]);
    weak(b"weak at condition 1", &[0, 1, 2, 0], &[0, 2, 2, 1]);
    weak(b"weak, not kept", &[0, 1, 1, 0], &[0, 1, 1, 0]);
    attempt(
        b"weak in weak",
        shape_of(3, [2, 2, 2, 0], 3),
        &[0, 1, 1, 2, 1, 2, 2, 2],
        &[0, 1, 1, 2, 1, 2, 2, 2],
        256,
        304,
    );
}

// Under the settings of a byte, in buffers that are as long as the largest table needs.
fn under(name: &[u8], byte: u8, shape: Shape, lower: &[u8], upper: &[u8]) {
    let mut work = [99u8; 32768];
    let mut network = [99u8; 49072];
    let how = settings::of_byte(byte);
    text(name);
    show_number(b", settings ", byte as usize);
    text(b": ");
    let answer = compile::compile_with(shape, lower, upper, how, &mut work, &mut network);
    show_answer(answer, shape, &work, &network);
    let forecast = compile::forecast_with(shape, lower, upper, how, &mut work);
    show_forecast(forecast, shape, &work);
    text(b"\n");
}

// A table whose gates tie.
fn tied(byte: u8) {
    under(
        b"full tie",
        byte,
        shape_of(2, [2, 2, 0, 0], 3),
        &[0, 0, 1, 2],
        &[0, 2, 1, 2],
    );
}

// A table that splits, and whose lowest condition is not the one with most values.
fn divided(byte: u8) {
    under(
        b"2 and 3 values",
        byte,
        shape_of(2, [2, 3, 0, 0], 2),
        &[0, 0, 0, 1, 1, 0],
        &[0, 0, 0, 1, 1, 0],
    );
}

// A table that joins weakly.
fn weakly(byte: u8) {
    under(
        b"weak at condition 0",
        byte,
        shape_of(2, [2, 2, 0, 0], 3),
        &[0, 1, 1, 2],
        &[0, 1, 1, 2],
    );
}

fn all_settings() {
    tied(0);
    tied(1);
    divided(0);
    divided(2);
    weakly(0);
    weakly(4);
    tied(248);
    divided(255);
    weakly(251);
    under(
        b"lower above upper",
        7,
        shape_of(2, [2, 2, 0, 0], 2),
        &EITHER,
        &E,
    );
}

fn main() {
    small();
    parities();
    weak_joins();
    largest();
    refusals();
    orders();
    all_settings();
}
