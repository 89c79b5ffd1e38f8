// The join calls, by either gate.
#![tactic(auto)]

ghost use Rattle.panel_joins.specs.Joins.{JoinsFirst, JoinsSecond};

use rules::Gate;
use shape::Shape;

pub fn first(
    gate: Gate,
    shape: &[u8],
    lower: &[u8],
    upper: &[u8],
    s: u8,
    t: u8,
    out_lower: &mut [u8],
    out_upper: &mut [u8],
) -> u32
    ensures { JoinsFirst gate shape.now lower.now upper.now s t out_lower.old out_upper.old result out_lower.new out_upper.new }
{
    match Shape::from_bytes(shape) {
        Err(refusal) => panel_answers::of_refusal(refusal),
        Ok(shape) => panel_answers::of_outcome(join::join_first(
            shape, lower, upper, gate, s, t, out_lower, out_upper,
        )),
    }
}

pub fn second(
    gate: Gate,
    shape: &[u8],
    lower: &[u8],
    upper: &[u8],
    s: u8,
    t: u8,
    g: &[u8],
    out_lower: &mut [u8],
    out_upper: &mut [u8],
) -> u32
    ensures { JoinsSecond gate shape.now lower.now upper.now s t g.now out_lower.old out_upper.old result out_lower.new out_upper.new }
{
    match Shape::from_bytes(shape) {
        Err(refusal) => panel_answers::of_refusal(refusal),
        Ok(shape) => panel_answers::of_outcome(join::join_second(
            shape, lower, upper, gate, s, t, g, out_lower, out_upper,
        )),
    }
}
