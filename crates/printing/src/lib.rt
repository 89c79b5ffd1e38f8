// What programs print: text, numbers, refusals and limits, on standard output.
#![tactic(auto)]

use rules::Refusal;

// Standard output's number.
const STDOUT: i32 = 1;

pub fn text(s: &[u8]) {
    io::write_all(STDOUT, s);
}

pub fn number(x: usize) {
    io::print_decimal(STDOUT, x as u64);
}

pub fn refused(refusal: Refusal) {
    text(b"refused ");
    number(refusal.number() as usize);
}

fn between(lower: u8, upper: u8) {
    text(b" ");
    number(lower as usize);
    text(b"..");
    number(upper as usize);
}

// The limits of as many cells as both buffers have.
pub fn limits(lower: &[u8], upper: &[u8]) {
    for (least, most) in lower.iter().zip(upper) {
        between(*least, *most);
    }
}
