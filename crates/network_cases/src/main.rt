// Evaluates and checks a network for each refusal and each kind of fault, and sound networks, and
// prints what it got: the grade, the refusal's number or what the check found; then the bytes of
// the work buffer that the call had to leave: all of them after a refusal, else those past the
// records. The buffer holds 99 everywhere before.
#![tactic(auto)]

use network::Outside;
use rules::Refusal;
use shape::Shape;

mod visits;

// A network of at most sixteen records.
// A program without a heap owns its bytes, so their number stands beside them.
#[derive(Clone, Copy)]
struct Records {
    bytes: [u8; 256],
    len: usize,
}

fn none() -> Records {
    Records {
        bytes: [0; 256],
        len: 0,
    }
}

impl Records {
    // With one record more: its kind, byte 1, its ceiling, the records of a gate, the first grades of a
    // literal.
    fn with(
        self,
        kind: u8,
        one: u8,
        top: u8,
        left: u8,
        right: u8,
        grade0: u8,
        grade1: u8,
    ) -> Records {
        let at = self.len;
        if 240 < at {
            return self;
        }
        let mut bytes = self.bytes;
        bytes[at] = kind;
        bytes[at + 1] = one;
        bytes[at + 2] = top;
        bytes[at + 4] = left;
        bytes[at + 6] = right;
        bytes[at + 8] = grade0;
        bytes[at + 9] = grade1;
        Records {
            bytes,
            len: at + 16,
        }
    }

    fn constant(self, grade: u8) -> Records {
        self.with(0, grade, grade, 0, 0, 0, 0)
    }

    fn literal(self, condition: u8, grade0: u8, grade1: u8) -> Records {
        self.with(1, condition, grade0.max(grade1), 0, 0, grade0, grade1)
    }

    // Byte 2 of a record.
    fn ceiling(self, k: u8) -> u8 {
        let at = 16 * usize::from(k) + 2;
        if at < 256 { self.bytes[at] } else { 0 }
    }

    fn min(self, left: u8, right: u8) -> Records {
        let top = self.ceiling(left).min(self.ceiling(right));
        self.with(2, 0, top, left, right, 0, 0)
    }

    fn max(self, left: u8, right: u8) -> Records {
        let top = self.ceiling(left).max(self.ceiling(right));
        self.with(3, 0, top, left, right, 0, 0)
    }

    // With another byte at a place.
    fn changed(self, at: usize, byte: u8) -> Records {
        let mut bytes = self.bytes;
        if let Some(place) = bytes.get_mut(at) {
            *place = byte;
        }
        Records { bytes, ..self }
    }

    // Cut, or lengthened by zeros, to a number of bytes.
    fn of_length(self, len: usize) -> Records {
        Records { len, ..self }
    }
}

// The limits of at most six cells, and how many bytes of each are lent.
#[derive(Clone, Copy)]
struct Limits {
    lower: [u8; 6],
    upper: [u8; 6],
    lower_room: usize,
    upper_room: usize,
}

// Of four cells. The two bytes past them are lent too, and are out of order: no call reads them.
fn four(lower: [u8; 4], upper: [u8; 4]) -> Limits {
    Limits {
        lower: [lower[0], lower[1], lower[2], lower[3], 9, 9],
        upper: [upper[0], upper[1], upper[2], upper[3], 0, 0],
        lower_room: 6,
        upper_room: 6,
    }
}

impl Limits {
    fn of_lengths(self, lower_room: usize, upper_room: usize) -> Limits {
        Limits {
            lower_room,
            upper_room,
            ..self
        }
    }
}

fn show_evaluation(answer: Result<u8, Refusal>) {
    match answer {
        Ok(grade) => {
            printing::text(b"grade ");
            printing::number(usize::from(grade));
        }
        Err(refusal) => printing::refused(refusal),
    }
}

fn show_check(answer: Result<Option<Outside>, Refusal>) {
    match answer {
        Ok(None) => printing::text(b"within"),
        Ok(Some(found)) => {
            printing::text(b"outside at ");
            printing::number(found.cell);
            printing::text(b" with ");
            printing::number(usize::from(found.grade));
        }
        Err(refusal) => printing::refused(refusal),
    }
}

// Bytes, with a space before each.
fn show_bytes(bytes: &[u8]) {
    for byte in bytes {
        printing::text(b" ");
        printing::number(usize::from(*byte));
    }
}

// The bytes of the work buffer that a call had to leave: those from a place on.
fn show_work(work: &[u8], from: usize) {
    printing::text(b", work");
    if from <= work.len() {
        show_bytes(&work[from..]);
    }
    printing::text(b"\n");
}

fn evaluate_into(name: &[u8], network: &[u8], shape: Shape, work: &mut [u8], cell: usize) {
    printing::text(name);
    printing::text(b": ");
    let answer = network::evaluate(network, shape, work, cell);
    show_evaluation(answer);
    show_work(
        work,
        if answer.is_ok() {
            network.len() / 16
        } else {
            0
        },
    );
}

fn evaluate(name: &[u8], network: &[u8], shape: Shape, room: usize, cell: usize) {
    let mut work = [99u8; 16];
    if room <= 16 {
        evaluate_into(name, network, shape, &mut work[..room], cell);
    }
}

fn try_cell(name: &[u8], records: Records, shape: Shape, room: usize, cell: usize) {
    if records.len <= 256 {
        evaluate(name, &records.bytes[..records.len], shape, room, cell);
    }
}

fn check_into(
    name: &[u8],
    network: &[u8],
    shape: Shape,
    lower: &[u8],
    upper: &[u8],
    work: &mut [u8],
) {
    printing::text(name);
    printing::text(b": ");
    let answer = network::check(network, shape, lower, upper, work);
    show_check(answer);
    show_work(
        work,
        if answer.is_ok() {
            network.len() / 16
        } else {
            0
        },
    );
}

fn check(name: &[u8], network: &[u8], shape: Shape, limits: Limits, room: usize) {
    let mut work = [99u8; 16];
    if limits.lower_room <= 6 && limits.upper_room <= 6 && room <= 16 {
        check_into(
            name,
            network,
            shape,
            &limits.lower[..limits.lower_room],
            &limits.upper[..limits.upper_room],
            &mut work[..room],
        );
    }
}

fn try_check(name: &[u8], records: Records, shape: Shape, limits: Limits, room: usize) {
    if records.len <= 256 {
        check(name, &records.bytes[..records.len], shape, limits, room);
    }
}

// A shape of at most four conditions.
fn shape_of(n: u8, c0: u8, c1: u8, c2: u8, c3: u8, m: u8) -> Shape {
    Shape {
        n,
        c0,
        c1,
        c2,
        c3,
        c4: 0,
        c5: 0,
        c6: 0,
        c7: 0,
        m,
    }
}

// Two conditions of two values, two grades.
fn square() -> Shape {
    shape_of(2, 2, 2, 0, 0, 2)
}

// The shape of 01's table F.
fn six() -> Shape {
    shape_of(2, 2, 3, 0, 0, 3)
}

// Eight conditions that call themselves nine.
fn nine() -> Shape {
    Shape {
        n: 9,
        c0: 2,
        c1: 2,
        c2: 2,
        c3: 2,
        c4: 2,
        c5: 2,
        c6: 2,
        c7: 2,
        m: 2,
    }
}

// The network that 01 lists for its table E.
fn parity() -> Records {
    none()
        .literal(0, 1, 0)
        .literal(1, 0, 1)
        .min(0, 1)
        .literal(0, 0, 1)
        .literal(1, 1, 0)
        .min(3, 4)
        .max(2, 5)
}

// 01's table E.
fn table_e() -> Limits {
    four([0, 1, 1, 0], [0, 1, 1, 0])
}

// The network of 01's table F: the grades 1 0 2 of condition 1.
fn literal_f() -> Records {
    none().literal(1, 1, 0).changed(10, 2).changed(2, 2)
}

fn table_f() -> Limits {
    Limits {
        lower: [1, 0, 0, 0, 2, 1],
        upper: [2, 1, 2, 0, 2, 2],
        lower_room: 6,
        upper_room: 6,
    }
}

fn grades() {
    try_cell(b"E at 0", parity(), square(), 7, 0);
    try_cell(b"E at 1", parity(), square(), 9, 1);
    try_cell(b"E at 2", parity(), square(), 9, 2);
    try_cell(b"E at 3", parity(), square(), 9, 3);
    try_cell(b"F at 1", literal_f(), six(), 3, 1);
    try_cell(b"F at 3", literal_f(), six(), 3, 3);
    try_cell(b"F at 5", literal_f(), six(), 3, 5);
    try_cell(
        b"one cell",
        none().constant(3),
        shape_of(0, 0, 0, 0, 0, 4),
        2,
        0,
    );
    try_cell(
        b"the last of 1024 cells",
        none().literal(3, 0, 1),
        shape_of(4, 8, 8, 8, 2, 2),
        2,
        1023,
    );
}

fn shapes() {
    try_cell(b"nine conditions", parity(), nine(), 9, 0);
    try_cell(b"cardinality 1", parity(), shape_of(2, 2, 1, 0, 0, 2), 9, 0);
    try_cell(b"cardinality 9", parity(), shape_of(2, 9, 2, 0, 0, 2), 9, 0);
    try_cell(
        b"a cardinality past the conditions",
        parity(),
        shape_of(2, 2, 2, 2, 0, 2),
        9,
        0,
    );
    try_cell(b"one grade", parity(), shape_of(2, 2, 2, 0, 0, 1), 9, 0);
    try_cell(
        b"seventeen grades",
        parity(),
        shape_of(2, 2, 2, 0, 0, 17),
        9,
        0,
    );
    try_cell(
        b"cardinalities 8 8 8 3",
        parity(),
        shape_of(4, 8, 8, 8, 3, 2),
        9,
        0,
    );
}

fn work() {
    try_cell(b"one work byte too few", parity(), square(), 6, 0);
    try_cell(
        b"seventeen bytes, no work byte",
        parity().of_length(17),
        square(),
        0,
        0,
    );
    try_cell(
        b"an unknown kind, one work byte too few",
        parity().changed(0, 4),
        square(),
        6,
        0,
    );
}

// A long network, with work for one record too many, shown from a place on.
fn evaluate_long(name: &[u8], network: &[u8], from: usize) {
    let mut work = [99u8; 4097];
    printing::text(name);
    printing::text(b": ");
    show_evaluation(network::evaluate(network, square(), &mut work, 0));
    show_work(&work, from);
}

fn lengths() {
    try_cell(b"no records", none(), square(), 4, 0);
    try_cell(b"seventeen bytes", parity().of_length(17), square(), 4, 0);
    try_cell(b"one byte too few", parity().of_length(111), square(), 9, 0);
    let most = [0u8; 65536];
    evaluate_long(b"4096 records", &most, 4096);
    let more = [0u8; 65552];
    evaluate_long(b"4097 records", &more, 4089);
}

fn try_fault(name: &[u8], records: Records) {
    try_cell(name, records, square(), 9, 0);
}

fn constants() {
    try_fault(b"an unknown kind", parity().changed(0, 4));
    try_fault(b"constant of the grade m", none().constant(2));
    try_fault(
        b"constant with byte 3 set",
        none().constant(1).changed(3, 1),
    );
    try_fault(
        b"constant of before, with byte 2 clear",
        none().constant(1).changed(2, 0),
    );
    try_fault(
        b"constant with byte 15 set",
        none().constant(1).changed(15, 1),
    );
}

fn literals() {
    try_fault(
        b"literal of a condition that is not there",
        parity().changed(1, 2),
    );
    try_fault(b"literal of condition 8", parity().changed(1, 8));
    try_fault(
        b"literal with the grade m",
        parity().changed(9, 2).changed(2, 2),
    );
    try_fault(
        b"literal with a grade past the cardinality",
        parity().changed(10, 1),
    );
    try_fault(b"literal with byte 4 set", parity().changed(4, 1));
    try_fault(b"literal with another byte 2", parity().changed(2, 0));
}

fn gates() {
    try_fault(b"min of itself, left", parity().changed(36, 2));
    try_fault(b"min of itself, right", parity().changed(38, 2));
    try_fault(b"max of itself", parity().changed(100, 6));
    try_fault(b"gate of a later record", parity().changed(38, 3));
    try_fault(b"gate of record 256", parity().changed(37, 1));
    try_fault(b"min with byte 1 set", parity().changed(33, 1));
    try_fault(b"max with byte 15 set", parity().changed(111, 1));
    try_fault(b"min with another byte 2", parity().changed(34, 0));
    try_fault(b"max with another byte 2", parity().changed(98, 0));
    try_fault(
        b"min with the ceiling of max",
        none().constant(0).constant(1).min(0, 1).changed(34, 1),
    );
}

fn cells() {
    try_cell(b"cell 4 of four", parity(), square(), 9, 4);
    try_cell(
        b"the largest cell number",
        parity(),
        square(),
        9,
        usize::MAX,
    );
    try_cell(
        b"cell 4 of a faulty network",
        parity().changed(0, 4),
        square(),
        9,
        4,
    );
}

fn checks() {
    try_check(b"E against E", parity(), square(), table_e(), 9);
    try_check(
        b"E against any grade",
        parity(),
        square(),
        four([0, 0, 0, 0], [1, 1, 1, 1]),
        9,
    );
    try_check(
        b"E against either",
        parity(),
        square(),
        four([0, 1, 1, 1], [0, 1, 1, 1]),
        9,
    );
    try_check(
        b"E against all 1",
        parity(),
        square(),
        four([1, 1, 1, 1], [1, 1, 1, 1]),
        9,
    );
    try_check(
        b"constant 0 against E",
        none().constant(0),
        square(),
        table_e(),
        3,
    );
    try_check(
        b"constant 1 against E",
        none().constant(1),
        square(),
        table_e(),
        3,
    );
    try_check(b"F against F", literal_f(), six(), table_f(), 3);
    try_check(
        b"literal 1 0 1 against F",
        none().literal(1, 1, 0).changed(10, 1),
        six(),
        table_f(),
        3,
    );
}

fn refused_checks() {
    try_check(
        b"check, cardinality 1",
        parity(),
        shape_of(2, 2, 1, 0, 0, 2),
        table_e(),
        9,
    );
    try_check(
        b"check, short lower limits",
        parity(),
        square(),
        table_e().of_lengths(3, 4),
        9,
    );
    try_check(
        b"check, short upper limits",
        parity(),
        square(),
        table_e().of_lengths(4, 3),
        9,
    );
    try_check(
        b"check, one work byte too few",
        parity(),
        square(),
        table_e(),
        6,
    );
    try_check(
        b"check, lower above upper",
        parity(),
        square(),
        four([0, 1, 1, 1], [0, 1, 1, 0]),
        9,
    );
    try_check(
        b"check, upper is m",
        parity(),
        square(),
        four([0, 1, 1, 0], [0, 1, 1, 2]),
        9,
    );
    try_check(
        b"check, min of itself",
        parity().changed(36, 2),
        square(),
        table_e(),
        9,
    );
    try_check(
        b"check, lower above upper, min of itself",
        parity().changed(36, 2),
        square(),
        four([0, 1, 1, 1], [0, 1, 1, 0]),
        9,
    );
    try_check(
        b"check, lower above upper, one work byte too few",
        parity(),
        square(),
        four([0, 1, 1, 1], [0, 1, 1, 0]),
        6,
    );
    try_check(b"check, no records", none(), square(), table_e(), 9);
}

fn main() {
    grades();
    shapes();
    work();
    lengths();
    constants();
    literals();
    gates();
    cells();
    checks();
    refused_checks();
    visits::all();
}
