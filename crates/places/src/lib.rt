// The eight places of a shape, and sets of conditions. A place holds the cardinality of its
// condition, 1 where there is none.
#![tactic(auto)]

pub mod members;
pub mod sets;

ghost use Rattle.std.specs.Prelude.{◌≡◌, ℕ, ◌≤◌, ◌<◌, ◌+◌, length};
ghost use Rattle.rules.specs.Bytes.{at};
ghost use Rattle.rules.specs.Cell.{Positive, cells, card, step, number, has};

use rules::PLACES;

// How far apart two cells lie that differ by 1 in condition i.
pub fn step(ks: [u8; PLACES], i: usize) -> usize
    requires { i ≤ 8 }
    ensures { result ≡ step ks i }
{
    let mut product: usize = 1;
    for card in &ks[..i] {
        product *= usize::from(*card);
    }
    product
}

pub fn cell_count(ks: [u8; PLACES]) -> usize
    ensures { result ≡ cells ks }
{
    step(ks, PLACES)
}

// The cell with the values that stand from place `from` on.
pub fn number(ks: [u8; PLACES], bytes: &[u8], from: usize) -> usize
    requires { Positive ks × (cells ks ≤ 1024) × (from + 8 ≤ length bytes.now) × ((i : ℕ) → i < 8 → at bytes.now (from + i) < card ks i) }
    ensures { result ≡ number ks (λ i. at bytes.now (from + i)) }
{
    let mut cell: usize = 0;
    let mut step: usize = 1;
    for (card, value) in ks.iter().zip(&bytes[from..from + PLACES]) {
        cell += step * usize::from(*value);
        step *= usize::from(*card);
    }
    cell
}

pub fn has_member(set: u8, i: usize) -> bool
    requires { i < 8 }
    ensures { result ≡ has set i }
{
    (set >> i) % 2 == 1
}
