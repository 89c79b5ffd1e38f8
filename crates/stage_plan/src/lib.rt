// Steps 1 to 4 of a stage: the conditions that are left, and what the stage does with them. A stage that a split
// started has its masks from there, another makes them. The masks tell whether a condition may drop and, of most
// stages that split, that they do, with no look at the limits.
#![tactic(auto)]

ghost use Rattle.std.specs.Prelude.{◌*◌, ◌≤◌, ◌<◌, ◌≡◌, true, length};
ghost use Rattle.rules.specs.Cell.{width};
ghost use Rattle.places.specs.Conditions.{IsLowest};
ghost use Rattle.masks.specs.Masks.{Known};
ghost use Rattle.stage_drops.specs.Working.{Room, front_stage, Proper};
ghost use Rattle.rules.specs.Settings.{settings_of};
ghost use Rattle.stage_plan.specs.Planning.{Ordered, Learnt, both_full, keeps_last, Doing, Ends, Planned};

use masks::tests;
use places::sets;
use places::sets::Condition;
use rules::PLACES;
use stage_choice::Choice;

// What is left of a stage: its places, how many cells these have, the lowest condition, and what the stage does.
#[derive(Clone, Copy)]
pub struct Plan {
    pub places: [u8; PLACES],
    pub cells: usize,
    pub low: Condition,
    pub choice: Choice,
}

impl Plan {
    fn new(places: [u8; PLACES], cells: usize, low: Condition, choice: Choice) -> Plan
        ensures { result ≡ record { places = places; cells = cells; low = low; choice = choice } }
    {
        Plan {
            places,
            cells,
            low,
            choice,
        }
    }
}

// The masks of the stage at the front, made unless they are known.
fn learn(w: &mut [u8], ks: [u8; PLACES], n: usize, known: bool)
    requires { Room w.old ks n × Ordered w.old n }
    ensures { Learnt ks known w.old w.new }
{
    if !known {
        mask_making::make(w, ks, n);
    }
}

// Whether some mask for max and some for min have every condition from k on.
fn both_full(w: &[u8], n: usize, k: usize) -> bool
    requires { (k < 8) × (4 * n ≤ length w.now) }
    ensures { result ≡ both_full w.now n k }
{
    tests::some_full(w, 2 * n, n, k) && tests::some_full(w, 3 * n, n, k)
}

// What the stage at the front does, whose conditions are left.
fn choose_left(w: &mut [u8], ks: [u8; PLACES], m: u8, n: usize, low: Condition, how: u8) -> Choice
    requires { Room w.old ks n × Proper m (front_stage ks w.old) × IsLowest ks low }
    ensures { Doing (settings_of how) m (front_stage ks w.old) w.old result w.new }
{
    if low.values == n {
        return Choice::Leaf;
    }
    mask_making::make(w, ks, n);
    stage_choice::choose(w, ks, m, n, how)
}

// The plan of a stage from which conditions may drop.
fn reduce(w: &mut [u8], ks: [u8; PLACES], m: u8, n: usize, how: u8) -> Plan
    requires { Room w.old ks n × Proper m (front_stage ks w.old) }
    ensures { Planned (settings_of how) m ks w.old result w.new }
{
    let kept = stage_drops::drop_all(w, ks, n);
    let places = kept.places;
    let cells = kept.cells;
    let low = sets::lowest(places);
    let choice = choose_left(w, places, m, cells, low, how);
    Plan::new(places, cells, low, choice)
}

// The plan of a stage that has one condition, or none.
fn end(w: &mut [u8], ks: [u8; PLACES], n: usize, low: Condition) -> Plan
    requires { Room w.old ks n × IsLowest ks low × (low.values ≡ n) }
    ensures { Ends ks w.old result w.new }
{
    if stage_drops::drop_last(w, ks, n, low) {
        let none = sets::without_one(ks, low.number);
        return Plan::new(none, 1, sets::lowest(none), Choice::Leaf);
    }
    Plan::new(ks, n, low, Choice::Leaf)
}

// The plan of a stage that has two conditions or more and knows its masks.
fn plan_known(w: &mut [u8], ks: [u8; PLACES], m: u8, n: usize, low: Condition, how: u8) -> Plan
    requires { Room w.old ks n × Proper m (front_stage ks w.old) × Known m ks w.old × IsLowest ks low × (2 ≤ width ks) }
    ensures { Planned (settings_of how) m ks w.old result w.new }
{
    if both_full(w, n, low.number) {
        return Plan::new(ks, n, low, Choice::Split);
    }
    let seen = tests::seen(w, 2 * n, n);
    if tests::full(seen, low.number) {
        let choice = stage_choice::choose(w, ks, m, n, how);
        return Plan::new(ks, n, low, choice);
    }
    reduce(w, ks, m, n, how)
}

// Whether the masks of a stage that has one condition or none are known, and tell that it has one and keeps it.
fn keeps_last(w: &[u8], n: usize, low: Condition, known: bool) -> bool
    requires { 4 * n ≤ length w.now }
    ensures { result ≡ keeps_last w.now n low.number known }
{
    known && low.number < PLACES && places::has_member(tests::seen(w, 2 * n, n), low.number)
}

// The plan of the stage over ks, of n cells, whose limits are at the front of the work buffer and, where they are
// known, its masks behind them. A split finds both there; a join finds what its blocks are made from.
pub fn plan_stage(w: &mut [u8], ks: [u8; PLACES], m: u8, n: usize, known: bool, how: u8) -> Plan
    requires { Room w.old ks n × Proper m (front_stage ks w.old) × (known ≡ true → Known m ks w.old) }
    ensures { Planned (settings_of how) m ks w.old result w.new }
{
    let low = sets::lowest(ks);
    if low.values == n {
        if keeps_last(w, n, low, known) {
            return Plan::new(ks, n, low, Choice::Leaf);
        }
        return end(w, ks, n, low);
    }
    learn(w, ks, n, known);
    plan_known(w, ks, m, n, low, how)
}
