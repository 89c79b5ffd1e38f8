// Sets of grades: bit g of sixteen says whether grade g is a member.
#![tactic(auto)]

ghost use Rattle.std.specs.Prelude.{◌≤◌, ◌<◌, ◌≡◌};
ghost use Rattle.rules.specs.GradeSet.{span, least_grade, greatest_grade, set_sound};

// The least grade of a set; 16 where there is none.
pub fn least(set: u16) -> u32
    ensures { result ≡ least_grade set }
{
    set.trailing_zeros()
}

// The greatest grade of a set that has one.
pub fn greatest(set: u16) -> u32
    requires { 0 < set }
    ensures { result ≡ greatest_grade set }
{
    set.ilog2()
}

// The set of the grades from the lower to the upper.
pub fn span(lower: u32, upper: u32) -> u32
    requires { (lower ≤ upper) × (upper < 16) }
    ensures { result ≡ span lower upper }
{
    (2u32 << upper) - (1u32 << lower)
}

// Whether a set has a grade, has all from its least to its greatest, and these are below m.
pub fn is_sound(set: u16, m: u8) -> bool
    ensures { result ≡ set_sound m set }
{
    if set == 0 {
        return false;
    }
    let upper = greatest(set);
    if u32::from(set) != span(least(set), upper) {
        return false;
    }
    upper < u32::from(m)
}
