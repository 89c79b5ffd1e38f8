// The records of a network, each written whole: record r at byte 16 × r, where the buffer has room for it,
// with its ceiling in byte 2.
#![tactic(auto)]

ghost use Rattle.std.specs.Prelude.{◌+◌, ◌*◌, ◌≤◌, ◌<◌, ◌≡◌, [], ◌∷◌, eqb, leb, length};
ghost use Rattle.rules.specs.Bytes.{at, pick, tabulate};
ghost use Rattle.rules.specs.Network.{constant, literal, gate, record_bytes};
ghost use Rattle.tables.specs.Part.{Laid};
ghost use Rattle.network_records.specs.Putting.{Put};

use rules::kinds::NetworkKind;
use rules::{Gate, RECORD};
use tables::grades;

// Whether the buffer has room for record r.
fn has_room(net: &[u8], r: usize) -> bool
    requires { r < 65536 }
    ensures { result ≡ leb (16 * r + 16) (length net.now) }
{
    RECORD * r + RECORD <= net.len()
}

// Sixteen bytes as record r. Written one by one: `copy_from_slice` first asks whether the two overlap, which costs more.
fn put(net: &mut [u8], r: usize, bytes: &[u8; RECORD])
    requires { (r < 65536) × (16 * r + 16 ≤ length net.old) }
    ensures { Laid net.old (16 * r) bytes.now 16 net.new }
{
    let start = RECORD * r;
    for (j, &byte) in bytes.iter().enumerate() {
        net[start + j] = byte;
    }
}

pub fn put_constant(net: &mut [u8], r: usize, grade: u8)
    requires { r < 65536 }
    ensures { Put net.old r (constant grade ∷ []) net.new }
{
    if !has_room(net, r) {
        return;
    }
    let mut bytes = [0u8; RECORD];
    bytes[0] = u8::from(NetworkKind::Constant);
    bytes[1] = grade;
    bytes[2] = grade;
    put(net, r, &bytes);
}

// The ceiling comes from byte 2 of the gate's records, which stand in the buffer wherever it has room for
// the gate.
pub fn put_gate(net: &mut [u8], r: usize, by: Gate, left: usize, right: usize)
    requires { (r < 65536) × (left < r) × (right < r) }
    ensures { Put net.old r (gate by left right ∷ []) net.new }
{
    if !has_room(net, r) {
        return;
    }
    let mut bytes = [0u8; RECORD];
    bytes[0] = u8::from(NetworkKind::Gate(by));
    bytes[2] = grades::combined(by, net[RECORD * left + 2], net[RECORD * right + 2]);
    bytes[4..6].copy_from_slice(&(left as u16).to_le_bytes());
    bytes[6..8].copy_from_slice(&(right as u16).to_le_bytes());
    put(net, r, &bytes);
}

// A literal's bytes before any of its grades.
fn literal_bytes(condition: u8, top: u8) -> [u8; RECORD]
    ensures { result ≡ record_bytes (literal condition []) top }
{
    let mut bytes = [0u8; RECORD];
    bytes[0] = u8::from(NetworkKind::Literal);
    bytes[1] = condition;
    bytes[2] = top;
    bytes
}

// A literal with the first `card` grades of a table.
pub fn put_literal(net: &mut [u8], r: usize, condition: u8, table: &[u8], card: usize)
    requires { (r < 65536) × (card ≤ 8) × (card ≤ length table.now) }
    ensures { Put net.old r (literal condition (tabulate card (at table.now)) ∷ []) net.new }
{
    if !has_room(net, r) {
        return;
    }
    let top = grades::greatest(&table[..card]);
    let mut bytes = literal_bytes(condition, top);
    tables::fill::put(&mut bytes[8..8 + card], &table[..card]);
    put(net, r, &bytes);
}

// A literal that is the top grade at value k of `card` values, and 0 elsewhere.
pub fn put_selector(net: &mut [u8], r: usize, condition: u8, card: usize, k: usize, top: u8)
    requires { (r < 65536) × (card ≤ 8) × (k < card) }
    ensures { Put net.old r (literal condition (tabulate card (λ v. pick (eqb v k) top 0)) ∷ []) net.new }
{
    if !has_room(net, r) {
        return;
    }
    let mut bytes = literal_bytes(condition, top);
    bytes[8 + k] = top;
    put(net, r, &bytes);
}
