// Sets of conditions: bit i of a byte says whether condition i is a member. And the conditions that
// eight places have.
ghost use Rattle.std.specs.Prelude.{◌<◌, ◌≡◌, T};
ghost use Rattle.rules.specs.Cell.{has, insert, singleton, without};
ghost use Rattle.rules.specs.Stage.{count};
ghost use Rattle.places.specs.Conditions.{IsLowest};

use rules::PLACES;

// The set of condition i alone.
pub fn singleton(i: usize) -> u8
    requires { i < 8 }
    ensures { result ≡ singleton i }
{
    1 << i
}

// A set with condition i, which it does not have yet.
pub fn insert(set: u8, i: usize) -> u8
    requires { (i < 8) × (T (has set i) → ⊥) }
    ensures { result ≡ insert set i }
{
    set | singleton(i)
}

// How many conditions a set has.
pub fn count(set: u8) -> usize
    ensures { result ≡ count set }
{
    set.count_ones() as usize
}

// The places without the conditions of a set.
pub fn without(ks: [u8; PLACES], set: u8) -> [u8; PLACES]
    ensures { result ≡ without set ks }
{
    let mut left = ks;
    for (i, card) in left.iter_mut().enumerate() {
        if crate::has_member(set, i) {
            *card = 1;
        }
    }
    left
}

// The places without condition i.
pub fn without_one(ks: [u8; PLACES], i: usize) -> [u8; PLACES]
    requires { i < 8 }
    ensures { result ≡ without (singleton i) ks }
{
    let mut left = ks;
    left[i] = 1;
    left
}

// A condition's number, and how many values it has.
#[derive(Clone, Copy)]
pub struct Condition {
    pub number: usize,
    pub values: usize,
}

// The condition with the lowest number; 8, with one value, where there is none: so `values` is the number of cells
// exactly where there is one condition or none. It is found with its values, since a read at a place that is found
// has the compiler lay the array out in memory.
pub fn lowest(ks: [u8; PLACES]) -> Condition
    ensures { IsLowest ks result }
{
    for (number, card) in ks.iter().enumerate() {
        if 1 < *card {
            return Condition {
                number,
                values: usize::from(*card),
            };
        }
    }
    Condition {
        number: PLACES,
        values: 1,
    }
}
