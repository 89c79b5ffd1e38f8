// Limits that stand in two lent buffers.
ghost use Rattle.std.specs.Prelude.{◌≤◌, ◌≡◌, ◌&&◌, leb, ltb, length};
ghost use Rattle.rules.specs.Bytes.{at, all};

// Whether each of n cells has its limits in order and below m.
pub fn limits_sound(lower: &[u8], upper: &[u8], m: u8, n: usize) -> bool
    requires { (n ≤ length lower.now) × (n ≤ length upper.now) }
    ensures { result ≡ all n (λ c. leb (at lower.now c) (at upper.now c) && ltb (at upper.now c) m) }
{
    lower[..n]
        .iter()
        .zip(&upper[..n])
        .all(|(low, high)| low <= high && *high < m)
}
