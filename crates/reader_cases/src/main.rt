// Reads a table file for each refusal that a file can meet, and document 01's small tables, and
// prints what it got: the refusal's number, or the shape and the limits of each cell.
#![tactic(auto)]

use shape::Shape;

// A file of at most sixteen records.
// A program without a heap owns its bytes, so their number stands beside them.
#[derive(Clone, Copy)]
struct File {
    bytes: [u8; 256],
    len: usize,
}

fn empty() -> File {
    File {
        bytes: [0; 256],
        len: 0,
    }
}

impl File {
    // The file with one record more: its kind, bytes 1 and 2, and its first two values.
    fn with(self, kind: u8, one: u8, two: u8, value0: u8, value1: u8) -> File {
        let at = self.len;
        if 240 < at {
            return self;
        }
        let mut bytes = self.bytes;
        bytes[at] = kind;
        bytes[at + 1] = one;
        bytes[at + 2] = two;
        bytes[at + 8] = value0;
        bytes[at + 9] = value1;
        File {
            bytes,
            len: at + 16,
        }
    }

    fn condition(self, number: u8, card: u8) -> File {
        self.with(1, number, card, 0, 0)
    }

    fn grades(self, m: u8) -> File {
        self.with(2, m, 0, 0, 0)
    }

    fn cell(self, lower: u8, upper: u8, value0: u8, value1: u8) -> File {
        self.with(3, lower, upper, value0, value1)
    }

    // The file with another byte at a place.
    fn damaged(self, at: usize, byte: u8) -> File {
        if 256 <= at {
            return self;
        }
        let mut bytes = self.bytes;
        bytes[at] = byte;
        File { bytes, ..self }
    }

    // The file cut, or lengthened by zeros, to a number of bytes.
    fn of_length(self, len: usize) -> File {
        File { len, ..self }
    }
}

fn space() {
    printing::text(b" ");
}

fn show_cards(shape: Shape) {
    for card in shape.cards() {
        if 1 < card {
            space();
            printing::number(usize::from(card));
        }
    }
}

fn show_shape(shape: Shape) {
    printing::text(b"cardinalities");
    show_cards(shape);
    printing::text(b", grades ");
    printing::number(usize::from(shape.m));
}

fn read_into(name: &[u8], file: &[u8], lower: &mut [u8], upper: &mut [u8]) {
    printing::text(name);
    printing::text(b": ");
    match table_file::read_table(file, lower, upper) {
        Ok(shape) => show_shape(shape),
        Err(refusal) => printing::refused(refusal),
    }
    printing::text(b", buffers");
    printing::limits(lower, upper);
    printing::text(b"\n");
}

// Reads the file into two buffers of `room` bytes that hold 99 everywhere, and shows all of them.
fn read(name: &[u8], file: &[u8], room: usize) {
    let mut lower = [99u8; 16];
    let mut upper = [99u8; 16];
    if room <= 16 {
        read_into(name, file, &mut lower[..room], &mut upper[..room]);
    }
}

fn try_file(name: &[u8], file: File, room: usize) {
    if file.len <= 256 {
        read(name, &file.bytes[..file.len], room);
    }
}

// A table of two conditions with two values and two grades.
fn square(lower: [u8; 4], upper: [u8; 4]) -> File {
    empty()
        .condition(0, 2)
        .condition(1, 2)
        .grades(2)
        .cell(lower[0], upper[0], 0, 0)
        .cell(lower[1], upper[1], 1, 0)
        .cell(lower[2], upper[2], 0, 1)
        .cell(lower[3], upper[3], 1, 1)
}

// 01's table E: parity of two conditions.
fn table_e() -> File {
    square([0, 1, 1, 0], [0, 1, 1, 0])
}

// 01's table F, the example of 000; its third cell, which may leave anything, is listed or not.
fn table_f(third: bool) -> File {
    let start = empty()
        .condition(0, 2)
        .condition(1, 3)
        .grades(3)
        .cell(1, 2, 0, 0)
        .cell(0, 1, 1, 0);
    let listed = if third { start.cell(0, 2, 0, 1) } else { start };
    listed.cell(0, 0, 1, 1).cell(2, 2, 0, 2).cell(1, 2, 1, 2)
}

fn lengths() {
    try_file(b"empty file", empty(), 4);
    try_file(b"seventeen bytes", table_e().of_length(17), 4);
    let long = [0u8; 16544];
    read(b"one record too many", &long, 4);
}

fn records() {
    try_file(b"unknown kind", table_e().damaged(0, 4), 4);
    try_file(b"condition with byte 3 set", table_e().damaged(3, 1), 4);
    try_file(b"grades with byte 2 set", table_e().damaged(34, 1), 4);
    try_file(
        b"cell with the value of a condition not read",
        table_e().damaged(58, 1),
        4,
    );
    try_file(b"condition 1 first", table_e().damaged(1, 1), 4);
    try_file(
        b"cell before the grades",
        empty().condition(0, 2).cell(0, 0, 0, 0),
        4,
    );
    try_file(b"condition after the grades", table_e().condition(2, 2), 4);
    try_file(b"grades twice", table_e().grades(2), 4);
    try_file(b"no grades record", empty().condition(0, 2), 4);
}

fn shapes() {
    try_file(b"cardinality 9", table_e().damaged(2, 9), 4);
    try_file(b"cardinality 1", table_e().damaged(2, 1), 4);
    try_file(b"one grade", table_e().damaged(33, 1), 4);
    try_file(b"seventeen grades", table_e().damaged(33, 17), 4);
    try_file(
        b"cardinalities 8 8 8 3",
        empty()
            .condition(0, 8)
            .condition(1, 8)
            .condition(2, 8)
            .condition(3, 3),
        4,
    );
    try_file(
        b"cardinalities 8 8 8 2",
        empty()
            .condition(0, 8)
            .condition(1, 8)
            .condition(2, 8)
            .condition(3, 2)
            .grades(2),
        4,
    );
}

fn cells() {
    try_file(b"value 2 of two", table_e().damaged(56, 2), 4);
    try_file(b"cell twice", table_e().cell(0, 0, 1, 1), 4);
    try_file(b"lower above upper", table_e().damaged(49, 1), 4);
    try_file(b"upper not a grade", table_e().damaged(50, 2), 4);
    try_file(b"buffers one byte short", table_e(), 3);
}

fn tables() {
    try_file(b"no conditions", empty().grades(4).cell(1, 3, 0, 0), 2);
    try_file(b"no cell listed", empty().condition(0, 2).grades(2), 2);
    try_file(
        b"no cell of four grades listed",
        empty().condition(0, 2).grades(4),
        2,
    );
    try_file(
        b"one condition, its value 1 not listed",
        empty().condition(0, 2).grades(2).cell(0, 0, 0, 0),
        2,
    );
    try_file(
        b"one condition",
        empty()
            .condition(0, 2)
            .grades(2)
            .cell(0, 0, 0, 0)
            .cell(1, 1, 1, 0),
        2,
    );
    try_file(b"either", square([0, 1, 1, 1], [0, 1, 1, 1]), 4);
    try_file(b"both", square([0, 0, 0, 1], [0, 0, 0, 1]), 4);
    try_file(b"either or both", square([0, 0, 0, 1], [0, 1, 1, 1]), 4);
    try_file(b"E", table_e(), 6);
    try_file(b"F", table_f(true), 8);
    try_file(b"F without its third cell", table_f(false), 8);
}

fn main() {
    lengths();
    records();
    shapes();
    cells();
    tables();
}
