// Evaluates a network at lists of cell numbers, and prints that grades were written or the refusal's
// number; then the whole buffer of the grades, and the bytes of the work buffer that the call had to
// leave: all of them after a refusal and for an empty list. The buffers hold 77 and 99 before.
use crate::Records;
use rules::Refusal;
use shape::Shape;

fn show_answer(answer: Result<(), Refusal>) {
    match answer {
        Ok(()) => printing::text(b"written"),
        Err(refusal) => printing::refused(refusal),
    }
}

// How many bytes of the work buffer a call may write.
fn free(answer: Result<(), Refusal>, network: &[u8], cells: &[u16]) -> usize {
    if answer.is_err() || cells.is_empty() {
        return 0;
    }
    network.len() / 16
}

fn visit_into(
    name: &[u8],
    network: &[u8],
    shape: Shape,
    cells: &[u16],
    grades: &mut [u8],
    work: &mut [u8],
) {
    printing::text(name);
    printing::text(b": ");
    let answer = network::evaluate_each(network, shape, cells, grades, work);
    show_answer(answer);
    printing::text(b", grades");
    crate::show_bytes(grades);
    crate::show_work(work, free(answer, network, cells));
}

// How many of five numbers are lent, and bytes for their grades and for the work.
#[derive(Clone, Copy)]
struct Lengths {
    numbers: usize,
    grades: usize,
    work: usize,
}

fn visit(name: &[u8], network: &[u8], shape: Shape, cells: [u16; 5], lengths: Lengths) {
    let mut grades = [77u8; 8];
    let mut work = [99u8; 16];
    if lengths.numbers <= 5 && lengths.grades <= 8 && lengths.work <= 16 {
        visit_into(
            name,
            network,
            shape,
            &cells[..lengths.numbers],
            &mut grades[..lengths.grades],
            &mut work[..lengths.work],
        );
    }
}

fn try_list(name: &[u8], records: Records, shape: Shape, cells: [u16; 5], lengths: Lengths) {
    if records.len <= 256 {
        let network = &records.bytes[..records.len];
        visit(name, network, shape, cells, lengths);
    }
}

// All five numbers, two bytes more than they take, and two of work more than E's records.
fn ample() -> Lengths {
    room(5, 7, 9)
}

fn room(numbers: usize, grades: usize, work: usize) -> Lengths {
    Lengths {
        numbers,
        grades,
        work,
    }
}

fn try_parity(name: &[u8], cells: [u16; 5], lengths: Lengths) {
    try_list(name, crate::parity(), crate::square(), cells, lengths);
}

// The four cells of E, with a number that has none among them.
fn try_fault(name: &[u8], records: Records, shape: Shape, lengths: Lengths) {
    try_list(name, records, shape, [1, 2, 4, 3, 0], lengths);
}

fn lists() {
    try_parity(b"every cell of E, one twice", [3, 1, 0, 2, 1], ample());
    try_parity(b"numbers with no cell", [4, 1, 65535, 255, 2], ample());
    try_parity(b"no number with a cell", [4, 4, 5, 6, 7], ample());
    try_parity(b"two of five numbers", [1, 4, 1, 1, 1], room(2, 7, 9));
    try_parity(b"exact buffers", [0, 1, 2, 3, 4], room(5, 5, 7));
    try_parity(b"an empty list", [1; 5], room(0, 3, 9));
    try_parity(b"an empty list, exact buffers", [1; 5], room(0, 0, 7));
    try_list(
        b"the last of 1024 cells, and one past it",
        crate::none().literal(3, 0, 1),
        crate::shape_of(4, 8, 8, 8, 2, 2),
        [1023, 0, 1024, 511, 512],
        ample(),
    );
    try_list(
        b"grades up to 15",
        crate::none().literal(0, 15, 14),
        crate::shape_of(1, 2, 0, 0, 0, 16),
        [0, 1, 2, 1, 0],
        ample(),
    );
}

fn refused() {
    try_fault(
        b"list, one grade",
        crate::parity(),
        crate::shape_of(2, 2, 2, 0, 0, 1),
        room(5, 4, 6),
    );
    try_fault(
        b"list, one byte too few",
        crate::parity(),
        crate::square(),
        room(5, 4, 9),
    );
    try_fault(
        b"list, one work byte too few",
        crate::parity(),
        crate::square(),
        room(5, 5, 6),
    );
    try_fault(
        b"list, one byte too few, an unknown kind",
        crate::parity().changed(0, 4),
        crate::square(),
        room(5, 4, 9),
    );
    try_fault(
        b"list, an unknown kind",
        crate::parity().changed(0, 4),
        crate::square(),
        room(5, 5, 7),
    );
}

// Faults stop an empty list too.
fn refused_empty() {
    try_fault(
        b"empty list, one grade",
        crate::parity(),
        crate::shape_of(2, 2, 2, 0, 0, 1),
        room(0, 0, 7),
    );
    try_fault(
        b"empty list, one work byte too few",
        crate::parity(),
        crate::square(),
        room(0, 0, 6),
    );
    try_fault(
        b"empty list, an unknown kind",
        crate::parity().changed(0, 4),
        crate::square(),
        room(0, 0, 7),
    );
    try_fault(
        b"empty list, no records",
        crate::none(),
        crate::square(),
        room(0, 0, 0),
    );
}

pub fn all() {
    lists();
    refused();
    refused_empty();
}
