// Turning a table file into the other edition, for C.
#![tactic(auto)]

ghost use Rattle.panel_editions.specs.Converts.{Converts};

use rules::Edition;

// A file of the given edition in the other one: 0, or the number of a refusal.
pub fn convert(file: &[u8], out: &mut [u8], edition: Edition) -> u32
    ensures { Converts edition file.now out.old result out.new }
{
    panel_answers::of_outcome(editions::convert(file, out, edition))
}
