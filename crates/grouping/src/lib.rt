// From the first pair that joins under the limits of a stage to the sets of a max join. The tables are parts of one
// buffer. For a min join the caller lends the limits exchanged.
#![tactic(auto)]

pub mod growing;
pub mod joins;

ghost use Rattle.std.specs.Prelude.{◌+◌, ◌<◌, ◌≡◌, ◌||◌};
ghost use Rattle.rules.specs.Cell.{cells, has};
ghost use Rattle.rules.specs.Settings.{less_or_tie};
ghost use Rattle.rules.specs.Stage.{count, keeps_max};
ghost use Rattle.grouping.specs.Joining.{joins_at};
ghost use Rattle.grouping.specs.Growing.{Space, First, Grouped};

use places::sets;
use rules::{Gate, PLACES};

// The sets of a join.
#[derive(Clone, Copy)]
pub struct Sets {
    pub s: u8,
    pub t: u8,
}

impl Sets {
    // The sets exchanged.
    fn turned(self) -> Sets
        ensures { (result.s ≡ self.t) × (result.t ≡ self.s) }
    {
        Sets {
            s: self.t,
            t: self.s,
        }
    }

    // Whether condition i is in either.
    fn has(self, i: usize) -> bool
        requires { i < 8 }
        ensures { result ≡ (has self.s i || has self.t i) }
    {
        places::has_member(self.s, i) || places::has_member(self.t, i)
    }

    // How many conditions each has.
    fn counts(self) -> (usize, usize)
        ensures { (result.0 ≡ count self.s) × (result.1 ≡ count self.t) }
    {
        (sets::count(self.s), sets::count(self.t))
    }
}

// The grouping that grows from the first pair that joins, i and j, under the limits of n cells at low and at high. The least upper
// grades over t stand behind the upper limits then, and those over s in their place.
pub fn group(
    w: &mut [u8],
    ks: [u8; PLACES],
    n: usize,
    i: usize,
    j: usize,
    low: usize,
    high: usize,
) -> Sets
    requires { (n ≡ cells ks) × Space w.old ks low (high + n) high × First (joins_at ks w.old low high) ks i j }
    ensures { Grouped w.old ks low high (high + n) high result w.new }
{
    growing::start_sets(w, ks, i, j, n, high);
    let first = Sets {
        s: sets::singleton(i),
        t: sets::singleton(j),
    };
    growing::grow(w, ks, n, first, low, high + n, high)
}

// Whether max's number is less than min's, or equal and max wins ties.
fn less_or_tie(tie: Gate, a: usize, b: usize) -> bool
    ensures { result ≡ less_or_tie tie a b }
{
    match tie {
        Gate::Max => a <= b,
        Gate::Min => a < b,
    }
}

// Whether the max grouping is taken before the min grouping: more conditions, then the smaller
// difference, then the gate that wins ties.
pub fn keeps_max(tie: Gate, max: Sets, min: Sets) -> bool
    ensures { result ≡ keeps_max tie max.s max.t min.s min.t }
{
    let (s, t) = max.counts();
    let (u, v) = min.counts();
    if s + t == u + v {
        return less_or_tie(tie, s.abs_diff(t), u.abs_diff(v));
    }
    u + v < s + t
}
