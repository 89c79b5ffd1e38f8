// The members of a set that a walk over its classes asks for.
ghost use Rattle.places.specs.Members.{LowestMember, HighestMember, MemberRun};

use rules::PLACES;

// The lowest member; 8 where there is none, the place past the last.
pub fn lowest(set: u8) -> usize
    ensures { LowestMember set result }
{
    set.trailing_zeros() as usize
}

// The highest member of a set that has one; 0 where there is none.
pub fn highest(set: u8) -> usize
    ensures { HighestMember set result }
{
    set.checked_ilog2().unwrap_or(0) as usize
}

// How many of the low places have no condition but members.
pub fn run(ks: [u8; PLACES], set: u8) -> usize
    ensures { MemberRun ks set result }
{
    let mut places = ks.iter().enumerate();
    places
        .position(|(i, card)| 1 < *card && !crate::has_member(set, i))
        .unwrap_or(PLACES)
}
