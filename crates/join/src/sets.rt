// The sets that a join is asked for.
ghost use Rattle.std.specs.Prelude.{◌≡◌, not, ◌&&◌, ◌||◌, ltb};
ghost use Rattle.rules.specs.Join.{sets_sound};

use rules::PLACES;

// A condition that is not in both sets, and is there if it is in one.
fn member_sound(card: u8, first: bool, second: bool) -> bool
    ensures { result ≡ (not (first && second) && (not (first || second) || ltb 1 card)) }
{
    !(first && second) && (!(first || second) || 1 < card)
}

// Whether s and t are not empty, have no condition in common, and name only conditions of ks.
pub fn sets_sound(ks: [u8; PLACES], s: u8, t: u8) -> bool
    ensures { result ≡ sets_sound ks s t }
{
    s != 0
        && t != 0
        && ks.iter().enumerate().all(|(i, &card)| {
            member_sound(card, places::has_member(s, i), places::has_member(t, i))
        })
}
