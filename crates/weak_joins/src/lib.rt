// Weak joins, which a stage tries where no two sets join: their second set is empty, so the first block keeps all
// conditions. Which one is tried, its tables, and whether it or the split is kept.
//
// While one is built, part 0 has the lower limits as the max join wants them and part 5, which no join writes to, the
// upper ones: from these its tables are made once more, or the stage's limits.
#![tactic(auto)]

ghost use Rattle.std.specs.Prelude.{◌+◌, ◌*◌, ◌≤◌, ◌<◌, ◌≡◌, cond, length, eqb};
ghost use Rattle.rules.specs.Bytes.{pick, numbers_from};
ghost use Rattle.rules.specs.Stage.{nowhere, first_weak, weak_found};
ghost use Rattle.tables.specs.Part.{part};
ghost use Rattle.masks.specs.Masks.{Known};
ghost use Rattle.stage_drops.specs.Working.{Room, front_stage, Proper};
ghost use Rattle.weak_joins.specs.Opening.{Turnable, Turns, Opened, Reopened, CanRestore, Restored};
ghost use Rattle.weak_joins.specs.Keeping.{Kept};
ghost use Rattle.weak_joins.specs.Trying.{weak_of, Common, lacking};

use places::sets;
use rules::{Gate, PLACES};
use stage_steps::gates::Extent;
use stage_steps::values;
use tables::fill;

// A weak join that a stage tries: by a gate at a condition.
#[derive(Clone, Copy)]
pub struct WeakJoin {
    pub gate: Gate,
    pub condition: usize,
}

// How far the networks of a split and of a weak join reach, each counted from record 0 on.
#[derive(Clone, Copy)]
pub struct Candidates {
    pub split: Extent,
    pub weak: Extent,
}

// A cell's mask, or all conditions where its grade is one that any function meets: then none counts by that cell.
fn if_bound(mask: u8, grade: u8, free: u8) -> u8
    ensures { result ≡ pick (eqb grade free) 255 mask }
{
    if grade == free { 255 } else { mask }
}

// The conditions that all of the n masks at a have, those aside of cells whose grade at `of` is `free`. It looks at
// every cell, so that many are taken at a time.
fn common(w: &[u8], a: usize, of: usize, free: u8, n: usize) -> u8
    requires { (a + n ≤ length w.now) × (of + n ≤ length w.now) }
    ensures { Common n (part w.now a n) (part w.now of n) free result }
{
    w[a..a + n]
        .iter()
        .zip(&w[of..of + n])
        .map(|(mask, grade)| if_bound(*mask, *grade, free))
        .fold(255, |found, mask| found & mask)
}

// The first condition that is missing in one of two sets, and the gate of that set: max is asked before min. Most
// stages that try none, as those of parity, have every bit in both.
fn first_lacking(ks: [u8; PLACES], by_max: u8, by_min: u8) -> Option<WeakJoin>
    ensures { weak_of result ≡ first_weak (lacking ks by_max by_min) (numbers_from 0 8) }
{
    if by_max & by_min == 255 {
        return None;
    }
    for (condition, card) in ks.iter().enumerate() {
        if *card > 1 {
            if !places::has_member(by_max, condition) {
                return Some(WeakJoin {
                    gate: Gate::Max,
                    condition,
                });
            }
            if !places::has_member(by_min, condition) {
                return Some(WeakJoin {
                    gate: Gate::Min,
                    condition,
                });
            }
        }
    }
    None
}

// The weak join that the stage at the front tries, if it may, from its masks: a condition counts by a gate unless all
// cells refuse it. Cells with a lower grade of 0 are not asked for max, nor those with the greatest upper grade for min.
pub fn first_weak(w: &[u8], ks: [u8; PLACES], m: u8, n: usize, may: bool) -> Option<WeakJoin>
    requires { Room w.now ks n × Proper m (front_stage ks w.now) × Known m ks w.now }
    ensures { weak_of result ≡ cond may (weak_found m (front_stage ks w.now)) nowhere }
{
    if !may {
        return None;
    }
    let by_max = common(w, 2 * n, 0, 0, n);
    let by_min = common(w, 3 * n, n, m - 1, n);
    first_lacking(ks, by_max, by_min)
}

// Limits as the max join wants them, for a join by either gate, and back: the lower ones are in part 0, before as
// after, and the upper ones go to another place.
fn turn(w: &mut [u8], gate: Gate, m: u8, from: usize, to: usize, n: usize)
    requires { Turnable m from to n w.old }
    ensures { Turns gate m from to n w.old w.new }
{
    match gate {
        Gate::Max => fill::copy(w, from, to, n),
        Gate::Min => {
            fill::complement(w, m - 1, 0, to, n);
            fill::complement(w, m - 1, from, 0, n);
        }
    }
}

// The tables of the weak join at condition i, from the turned limits: u_b in part 1, and in part 2 u_a, which is over no
// condition and so the upper limits themselves.
pub fn reopen(w: &mut [u8], ks: [u8; PLACES], i: usize, n: usize)
    requires { Room w.old ks n × (i < 8) }
    ensures { Reopened ks i n w.old w.new }
{
    fill::copy(w, 5 * n, 2 * n, n);
    fill::copy(w, 5 * n, n, n);
    join_tables::over_part(w, false, ks, sets::singleton(i), n, n);
}

// The tables of the weak join of the stage at the front, by a gate at condition i.
pub fn open(w: &mut [u8], gate: Gate, m: u8, ks: [u8; PLACES], i: usize, n: usize)
    requires { Room w.old ks n × Proper m (front_stage ks w.old) × (i < 8) }
    ensures { Opened gate m ks i n w.old w.new }
{
    turn(w, gate, m, n, 5 * n, n);
    reopen(w, ks, i, n);
}

// The stage at the front again, and its masks.
pub fn restore(w: &mut [u8], gate: Gate, m: u8, ks: [u8; PLACES], n: usize)
    requires { Room w.old ks n × CanRestore gate m ks n w.old }
    ensures { Restored gate m ks n w.old w.new }
{
    turn(w, gate, m, 5 * n, n, n);
    mask_making::make(w, ks, n);
}

// The candidate with fewer records, or the split where they have as many: how far its network reaches from record r on
// and, where it is wanted, its function at the front. The weak join's is there already, the split's is in part 4.
pub fn keep(w: &mut [u8], of: Candidates, c: usize, r: usize, want: bool) -> Extent
    requires { (5 * c ≤ length w.old) × (of.weak.next < of.split.next → r + of.weak.next ≤ 65536) × (of.split.next ≤ of.weak.next → r + of.split.next ≤ 65536) }
    ensures { Kept c of r want w.old result w.new }
{
    if of.weak.next < of.split.next {
        return Extent {
            next: r + of.weak.next,
            depth: of.weak.depth,
        };
    }
    values::collect(w, want, c);
    Extent {
        next: r + of.split.next,
        depth: of.split.depth,
    }
}
