// A walk over the cells of a table, which tests each one on its line.
ghost use Rattle.std.specs.Prelude.{◌≡◌, true, false};
ghost use Rattle.lines.specs.Walk.{Lined, Takes, AllGave, SomeGave};

use crate::Along;

// Whether n cells pass a test, each on its line along a condition with this step and cardinality. It stops at the
// first that fails.
pub fn all_cells<F: Fn(usize, Along) -> bool>(n: usize, step: usize, card: usize, test: F) -> bool
    requires lined { Lined step card }
    requires takes { Takes (F.pre test) n step card }
    ensures passed { result ≡ true → AllGave (F.post test) n step card true }
    ensures failed { result ≡ false → SomeGave (F.post test) n step card false }
{
    let mut on = crate::first(step, card);
    for c in 0..n {
        if !test(c, on) {
            return false;
        }
        on = crate::next(on);
    }
    true
}
