// Masks: a byte for each cell, whose bit i says that the cell refuses condition i. For max its lower grade is above
// the least upper grade over the condition, for min its upper grade is below the greatest lower grade over it.
// Whether conditions drop or join is read off the masks, and those of a stage serve the stages that a split starts.
#![tactic(auto)]

pub mod tests;

ghost use Rattle.std.specs.Prelude.{◌+◌, ◌≤◌, ◌<◌, ◌≡◌, length};
ghost use Rattle.std.specs.Int.Bits.{bit_or};
ghost use Rattle.rules.specs.Bytes.{at, tabulate};
ghost use Rattle.rules.specs.Cell.{cells, singleton};
ghost use Rattle.tables.specs.Part.{part, Laid};
ghost use Rattle.masks.specs.Searching.{Searched};

use places::sets;
use rules::PLACES;

// The first pair i < j that joins, i rising, then j: no mask has both.
pub fn first_pair(w: &[u8], ks: [u8; PLACES], a: usize, n: usize) -> Option<(usize, usize)>
    requires { (n ≡ cells ks) × (a + n ≤ length w.now) }
    ensures { Searched ks (part w.now a n) result }
{
    let mut found = None;
    'search: for (i, card) in ks.iter().enumerate() {
        if *card > 1 {
            let beside = tests::seen_beside(w, a, n, i);
            // By number: it is the numbers that are answered.
            for j in i + 1..PLACES {
                if ks[j] > 1 && !places::has_member(beside, j) {
                    found = Some((i, j));
                    break 'search;
                }
            }
        }
    }
    found
}

// Adds a condition to the n masks at a. Where it is not there, its bit says nothing, and with it a mask that refuses
// all conditions is full.
pub fn add(w: &mut [u8], a: usize, n: usize, i: usize)
    requires { (i < 8) × (a + n ≤ length w.old) }
    ensures { Laid w.old a (tabulate n (λ x. bit_or (at (part w.old a n) x) (singleton i))) n w.new }
{
    let bit = sets::singleton(i);
    for mask in &mut w[a..a + n] {
        *mask |= bit;
    }
}
