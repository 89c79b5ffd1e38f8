// Steps 3 and 4 of a stage: which join, or a split.
#![tactic(auto)]

ghost use Rattle.rules.specs.Join.{join_exists};
ghost use Rattle.masks.specs.Masks.{Known};
ghost use Rattle.masks.specs.Searching.{FirstPair};
ghost use Rattle.stage_drops.specs.Working.{Room, front_stage, Proper};
ghost use Rattle.rules.specs.Settings.{settings_of};
ghost use Rattle.stage_choice.specs.Choosing.{Spaced, Exchangeable, Exchanged, LimitsLaid, Sought, Decided, MinSettled, Settled, Chosen};

use grouping::Sets;
use rules::{Gate, PLACES};
use tables::fill;

// What a stage does: the one record of a stage with no condition left or one, a split, or a join.
#[derive(Clone, Copy)]
pub enum Choice {
    Leaf,
    Split,
    Join(Gate, Sets),
}

// The limits as a min join wants them, in parts 3 and 4.
fn exchange_limits(w: &mut [u8], m: u8, n: usize)
    requires { Exchangeable w.old m n }
    ensures { Exchanged m n w.old w.new }
{
    join_tables::exchange_block(w, Gate::Min, m, n, 3 * n, n);
    join_tables::exchange_block(w, Gate::Min, m, 0, 4 * n, n);
}

// Where the limits stand as the join of a gate wants them: for min they are exchanged first.
fn lay_limits(w: &mut [u8], gate: Gate, ks: [u8; PLACES], m: u8, n: usize) -> usize
    requires { Room w.old ks n × Proper m (front_stage ks w.old) }
    ensures { LimitsLaid gate m ks n w.old result w.new }
{
    match gate {
        Gate::Max => 0,
        Gate::Min => {
            exchange_limits(w, m, n);
            3 * n
        }
    }
}

// The grouping for a gate, which grows from the first pair that joins by it. Where there is none, nothing is
// written.
fn seek(
    w: &mut [u8],
    gate: Gate,
    ks: [u8; PLACES],
    m: u8,
    n: usize,
    pair: Option<(usize, usize)>,
) -> Option<Sets>
    requires { Room w.old ks n × Proper m (front_stage ks w.old) × FirstPair ks (λ a b. join_exists gate ks m a b (front_stage ks w.old).limits) «pair» }
    ensures { Sought gate m ks w.old result w.new }
{
    let (i, j) = pair?;
    let low = lay_limits(w, gate, ks, m, n);
    Some(grouping::group(w, ks, n, i, j, low, low + n))
}

// The choice between the grouping for max and the one for min, by the gate that wins ties.
fn decide(tie: Gate, by_max: Option<Sets>, by_min: Option<Sets>) -> Choice
    ensures { Decided tie by_max by_min result }
{
    match (by_max, by_min) {
        (None, None) => Choice::Split,
        (Some(most), None) => Choice::Join(Gate::Max, most),
        (None, Some(least)) => Choice::Join(Gate::Min, least),
        (Some(most), Some(least)) => {
            if grouping::keeps_max(tie, most, least) {
                Choice::Join(Gate::Max, most)
            } else {
                Choice::Join(Gate::Min, least)
            }
        }
    }
}

// The tables of the min join in the places of the max join's.
fn settle_min(w: &mut [u8], n: usize)
    requires { Spaced w.old n }
    ensures { MinSettled n w.old w.new }
{
    fill::copy(w, 3 * n, 0, n);
    fill::copy(w, 4 * n, n, n);
    fill::copy(w, 5 * n, 2 * n, n);
}

// The tables of the join that is chosen in the places of the max join's.
fn settle(w: &mut [u8], choice: Choice, n: usize)
    requires { Spaced w.old n }
    ensures { Settled n w.old choice w.new }
{
    if let Choice::Join(Gate::Min, _) = choice {
        settle_min(w, n);
    }
}

// The choice of the stage at the front of the buffer, which has n cells, from its masks. A split finds every byte
// as it was; a join finds its lower limits in part 0, u_b in part 1 and u_a in part 2, as the max join wants them.
// The pairs are found first, since the tables of a grouping take the masks' places, and the min grouping is sought
// first, since those of a max grouping take the upper limits' place.
pub fn choose(w: &mut [u8], ks: [u8; PLACES], m: u8, n: usize, how: u8) -> Choice
    requires { Room w.old ks n × Proper m (front_stage ks w.old) × Known m ks w.old }
    ensures { Chosen (settings_of how) m (front_stage ks w.old) w.old result w.new }
{
    let for_max = masks::first_pair(w, ks, 2 * n, n);
    let for_min = masks::first_pair(w, ks, 3 * n, n);
    let by_min = seek(w, Gate::Min, ks, m, n, for_min);
    let by_max = seek(w, Gate::Max, ks, m, n, for_max);
    let tie = settings::tie(how);
    let choice = decide(tie, by_max, by_min);
    settle(w, choice, n);
    choice
}
