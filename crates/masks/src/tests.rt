// What the n masks at a say. None of these writes.
ghost use Rattle.std.specs.Prelude.{◌+◌, ◌≤◌, ◌<◌, ◌≡◌, length};
ghost use Rattle.rules.specs.Bytes.{pick};
ghost use Rattle.rules.specs.Cell.{has};
ghost use Rattle.tables.specs.Part.{part};
ghost use Rattle.masks.specs.Masks.{is_full_from, some_full, Union, every};

// Whether a mask has every condition from k on.
pub fn full(mask: u8, k: usize) -> bool
    requires { k < 8 }
    ensures { result ≡ is_full_from k mask }
{
    mask >> k == 255u8 >> k
}

// Whether some mask has every condition from k on: if no condition is before k, then no two join, and none drops.
pub fn some_full(w: &[u8], a: usize, n: usize, k: usize) -> bool
    requires { (k < 8) × (a + n ≤ length w.now) }
    ensures { result ≡ some_full n (part w.now a n) k }
{
    w[a..a + n].iter().any(|mask| full(*mask, k))
}

// The conditions that some mask has: the others drop.
pub fn seen(w: &[u8], a: usize, n: usize) -> u8
    requires { a + n ≤ length w.now }
    ensures { Union n (part w.now a n) every result }
{
    w[a..a + n].iter().fold(0, |found, mask| found | mask)
}

// A mask with condition i, or none in its place. A choice and no `filter`: many are taken at a time.
fn if_member(mask: u8, i: usize) -> u8
    requires { i < 8 }
    ensures { result ≡ pick (has mask i) mask 0 }
{
    if places::has_member(mask, i) { mask } else { 0 }
}

// The conditions that some mask has beside condition i: the others join it.
pub fn seen_beside(w: &[u8], a: usize, n: usize, i: usize) -> u8
    requires { (i < 8) × (a + n ≤ length w.now) }
    ensures { Union n (part w.now a n) (λ s. has s i) result }
{
    w[a..a + n]
        .iter()
        .fold(0, |found, mask| found | if_member(*mask, i))
}
