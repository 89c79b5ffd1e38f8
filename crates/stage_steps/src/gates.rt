// The gates over networks that stand one behind the other.
ghost use Rattle.std.specs.Prelude.{◌+◌, ◌<◌, ◌≡◌};
ghost use Rattle.stage_steps.specs.Extents.{GateRoom, GatePut};

use network_records::put_gate;
use rules::Gate;

// How far a network reaches: the record behind its last one, and the depth of gates under its last one.
#[derive(Clone, Copy)]
pub struct Extent {
    pub next: usize,
    pub depth: usize,
}

impl Extent {
    // That of record r alone, which is no gate.
    pub fn of_record(r: usize) -> Extent
        requires { r < 65536 }
        ensures { result ≡ record { next = r + 1; depth = 0 } }
    {
        Extent {
            next: r + 1,
            depth: 0,
        }
    }
}

// The gate over two networks, right behind the second.
pub fn gate_over(network: &mut [u8], by: Gate, left: Extent, right: Extent) -> Extent
    requires { GateRoom left right }
    ensures { GatePut by left right network.old result network.new }
{
    put_gate(network, right.next, by, left.next - 1, right.next - 1);
    Extent {
        next: right.next + 1,
        depth: left.depth.max(right.depth) + 1,
    }
}
