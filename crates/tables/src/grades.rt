// One grade of several.
ghost use Rattle.std.specs.Prelude.{ℕ, ◌≡◌};
ghost use Rattle.rules.specs.Bytes.{greatest};
ghost use Rattle.rules.specs.Network.{combine};
ghost use Rattle.tables.specs.Line.{best};

use rules::Gate;

// The greater of two grades, or the lesser.
pub fn extreme(greater: bool, a: u8, b: u8) -> u8
    ensures { result ≡ best greater a b }
{
    if greater { a.max(b) } else { a.min(b) }
}

// Whether a gate takes the greater of two grades.
pub fn takes_greater(gate: Gate) -> bool
    ensures { (x y : ℕ) → best result x y ≡ combine gate x y }
{
    match gate {
        Gate::Min => false,
        Gate::Max => true,
    }
}

// The gate of two grades.
pub fn combined(gate: Gate, a: u8, b: u8) -> u8
    ensures { result ≡ combine gate a b }
{
    extreme(takes_greater(gate), a, b)
}

// The greatest grade of a list, 0 where there is none.
pub fn greatest(grades: &[u8]) -> u8
    ensures { result ≡ greatest grades.now }
{
    grades.iter().fold(0, |found, grade| found.max(*grade))
}
