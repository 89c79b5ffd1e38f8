// How a stage ends: with the one record of a stage that has no condition left, or one; with a join's
// gate; and with its function over its own conditions.
ghost use Rattle.stage_blocks.specs.Blocks.{JoinedRoom, JoinedLaid};
ghost use Rattle.stage_steps.specs.Extents.{GateRoom};
ghost use Rattle.stage_steps.specs.Ends.{LeafRoom, LeafPut, Closed, SpreadRoom, SpreadLaid};
ghost use Rattle.stage_steps.specs.Wanting.{Wanted};

use crate::gates;
use crate::gates::Extent;
use network_records::{put_constant, put_literal};
use places::sets::Condition;
use rules::{Gate, PLACES};
use tables::fill;

// Step 2: a constant, or a literal of the one condition that is left, of the lower grades at the front of the
// buffer.
pub fn leaf(w: &[u8], network: &mut [u8], low: Condition, r: usize) -> Extent
    requires { LeafRoom w.now low r }
    ensures { LeafPut low w.now network.old r result network.new }
{
    if PLACES <= low.number {
        put_constant(network, r, w[0]);
        return Extent::of_record(r);
    }
    put_literal(network, r, low.number as u8, w, low.values);
    Extent::of_record(r)
}

// The join's function, from its blocks', where it is wanted.
fn join_if(w: &mut [u8], want: bool, gate: Gate, ks: [u8; PLACES], b: [u8; PLACES], c: usize)
    requires { JoinedRoom w.old ks b c }
    ensures { Wanted want (JoinedLaid gate ks b c w.old) w.old w.new }
{
    if want {
        stage_blocks::joined(w, gate, ks, b, c);
    }
}

// Step 5: the gate over the networks of two blocks, and the join's function, where it is wanted.
pub fn close_join(
    w: &mut [u8],
    network: &mut [u8],
    gate: Gate,
    ks: [u8; PLACES],
    b: [u8; PLACES],
    c: usize,
    first: Extent,
    second: Extent,
    want: bool,
) -> Extent
    requires { JoinedRoom w.old ks b c × GateRoom first second }
    ensures { Closed gate ks b c first second want w.old network.old result w.new network.new }
{
    join_if(w, want, gate, ks, b, c);
    gates::gate_over(network, gate, first, second)
}

// The function of the n cells left, over all c cells of the stage. Nothing moves where no condition was
// dropped.
fn spread(w: &mut [u8], b: [u8; PLACES], ks: [u8; PLACES], n: usize, c: usize)
    requires { SpreadRoom w.old ks b n c }
    ensures { SpreadLaid ks b w.old w.new }
{
    if n == c {
        return;
    }
    let spare = 2 * c;
    fill::copy(w, 0, spare, n);
    moves::moved(w, b, ks, c, spare, 0);
}

// The same where it is wanted.
pub fn spread_if(w: &mut [u8], want: bool, b: [u8; PLACES], ks: [u8; PLACES], n: usize, c: usize)
    requires { SpreadRoom w.old ks b n c }
    ensures { Wanted want (SpreadLaid ks b w.old) w.old w.new }
{
    if want {
        spread(w, b, ks, n, c);
    }
}
