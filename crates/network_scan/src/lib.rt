// Which networks are sound.
#![tactic(auto)]

ghost use Rattle.std.specs.Prelude.{◌≡◌, ◌&&◌, ◌||◌, ◌+◌, ◌*◌, ◌/◌, ◌%◌, ◌<◌, ◌≤◌, eqb, leb, ltb, length};
ghost use Rattle.rules.specs.Bytes.{pick, at, all, zeros, word, greatest};
ghost use Rattle.rules.specs.Network.{combine, record_of, record_ceiling, record_formed, ceiling_at, network_sound};
ghost use Rattle.network_scan.specs.Kinds.{literal_grades, literal_sound, gate_sound, ceiling_is};

use rules::kinds::NetworkKind;
use rules::{Gate, PLACES, RECORD};
use tables::{grades, tests};

const MAX_RECORDS: usize = 4096;

// By a record's kind, 1 for each byte that must be zero.
const MUST_BE_ZERO: [[u8; RECORD]; 4] = [
    [0, 0, 0, 1, 1, 1, 1, 1, 1, 1, 1, 1, 1, 1, 1, 1], // a constant
    [0, 0, 0, 1, 1, 1, 1, 1, 0, 0, 0, 0, 0, 0, 0, 0], // a literal
    [0, 1, 0, 1, 0, 0, 0, 0, 1, 1, 1, 1, 1, 1, 1, 1], // min
    [0, 1, 0, 1, 0, 0, 0, 0, 1, 1, 1, 1, 1, 1, 1, 1], // max
];

// A byte that must be zero, by its entry in the table; 0 for any other.
fn must_be_zero(entry: u8, byte: u8) -> u32
    ensures value { result ≡ pick (eqb entry 0) 0 byte }
    ensures few { result ≤ 255 }
{
    if entry == 0 { 0 } else { u32::from(byte) }
}

// Whether every byte that must be zero by a row of the table is: their sum is.
fn row_sound(r: &[u8; RECORD], row: [u8; RECORD]) -> bool
    ensures { result ≡ all 16 (λ j. eqb (at row j) 0 || eqb (at r.now j) 0) }
{
    let mut sum = 0;
    for (&entry, &byte) in row.iter().zip(r) {
        sum += must_be_zero(entry, byte);
    }
    sum == 0
}

// A constant's byte 1 is a grade, and byte 2 the same.
fn constant_sound(r: &[u8; RECORD], m: u8) -> bool
    ensures { result ≡ (ltb (at r.now 1) m && ceiling_is (at r.now 1) r.now) }
{
    r[1] < m && r[2] == r[1]
}

// Whether a condition has so many values, byte 2 is a grade, and the bytes past the grades are zeros.
fn literal_formed(r: &[u8; RECORD], values: u8, m: u8) -> bool
    ensures { result ≡ (leb 2 values && (ltb (at r.now 2) m && zeros r.now (8 + values) 16)) }
{
    2 <= values && r[2] < m && tests::zero_between(r, 8 + usize::from(values), RECORD)
}

// The literal's condition is there, its bytes are grades, and byte 2 is the greatest of them: past the cardinality
// they are zeros, which exceed none.
fn literal_sound(r: &[u8; RECORD], ks: [u8; PLACES], m: u8) -> bool
    ensures { result ≡ (literal_sound ks m r.now && ceiling_is (greatest (literal_grades ks r.now)) r.now) }
{
    let Some(&values) = ks.get(usize::from(r[1])) else {
        return false;
    };
    literal_formed(r, values, m) && r[2] == grades::greatest(&r[8..])
}

// The number of two bytes at j, the low byte first.
pub fn word(r: &[u8], j: usize) -> usize
    requires { j + 1 < length r.now }
    ensures { result ≡ word r.now j }
{
    r[j] as usize + 256 * (r[j + 1] as usize)
}

// Both records of gate k stand before it, and byte 2 is the gate of theirs.
fn gate_sound(network: &[u8], r: &[u8; RECORD], k: usize, by: Gate) -> bool
    requires { 16 * k ≤ length network.now }
    ensures { result ≡ (gate_sound k r.now && ceiling_is (combine by (ceiling_at network.now (word r.now 4)) (ceiling_at network.now (word r.now 6))) r.now) }
{
    let left = usize::from(u16::from_le_bytes([r[4], r[5]]));
    let right = usize::from(u16::from_le_bytes([r[6], r[7]]));
    // By index: a gate has the numbers of its records.
    left.max(right) < k
        && r[2] == grades::combined(by, network[RECORD * left + 2], network[RECORD * right + 2])
}

// Whether r is sound as record k of a network. Each row is read by its own number: a constant table is laid out
// anew wherever it is read by a number that is not known.
fn record_sound(network: &[u8], r: &[u8; RECORD], ks: [u8; PLACES], m: u8, k: usize) -> bool
    requires { 16 * k ≤ length network.now }
    ensures { result ≡ (record_formed ks m k r.now && ceiling_is (record_ceiling (ceiling_at network.now) (record_of ks r.now)) r.now) }
{
    match NetworkKind::try_from(r[0]) {
        Ok(NetworkKind::Constant) => row_sound(r, MUST_BE_ZERO[0]) && constant_sound(r, m),
        Ok(NetworkKind::Literal) => row_sound(r, MUST_BE_ZERO[1]) && literal_sound(r, ks, m),
        Ok(NetworkKind::Gate(Gate::Min)) => {
            row_sound(r, MUST_BE_ZERO[2]) && gate_sound(network, r, k, Gate::Min)
        }
        Ok(NetworkKind::Gate(Gate::Max)) => {
            row_sound(r, MUST_BE_ZERO[3]) && gate_sound(network, r, k, Gate::Max)
        }
        Err(_) => false,
    }
}

// Whether each record has its mark. Those that lack it are counted, since adding needs no branch.
fn all_marked(marks: &[u8]) -> bool
    requires { length marks.now ≤ 4096 }
    ensures { result ≡ all (length marks.now) (λ k. eqb (at marks.now k) 1) }
{
    let missing: u32 = marks.iter().map(|&mark| u32::from(mark != 1)).sum();
    missing == 0
}

// Whether so many bytes are whole records, and as many as a network may have.
fn length_sound(bytes: usize) -> bool
    ensures { result ≡ (ltb 0 bytes && (eqb (bytes % 16) 0 && leb (bytes / 16) 4096)) }
{
    0 < bytes && bytes % RECORD == 0 && bytes / RECORD <= MAX_RECORDS
}

// Whether the network is sound over the places ks, with m grades: each good record gets a mark.
pub fn scan(network: &[u8], ks: [u8; PLACES], m: u8) -> bool
    ensures { result ≡ network_sound ks m network.now }
{
    if !length_sound(network.len()) {
        return false;
    }
    let (records, _) = network.as_chunks::<RECORD>();
    let mut marks = [0u8; MAX_RECORDS];
    for (k, r) in records.iter().enumerate() {
        if record_sound(network, r, ks, m, k) {
            // By number: through `iter_mut` beside an `enumerate`, a proof learns nothing of the slice's end.
            marks[k] = 1;
        }
    }
    all_marked(&marks[..records.len()])
}
