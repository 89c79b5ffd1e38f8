// Request 8: the condition that a split takes.
ghost use Rattle.std.specs.Prelude.{◌≤◌};
ghost use Rattle.rules.specs.Cell.{width, most_values};
ghost use Rattle.rules.specs.Settings.{split_condition};
ghost use Rattle.places.specs.Conditions.{IsLowest};
ghost use Rattle.tables.specs.Part.{Shaped};
ghost use Rattle.stage_steps.specs.Cuts.{IsCut, Better};

use places::sets::Condition;
use rules::{PLACES, SplitOn};

// A condition as tables are split on it: its number, how many values it has, and how many cells a row of one value has.
#[derive(Clone, Copy)]
pub struct Cut {
    pub number: usize,
    pub values: usize,
    pub step: usize,
}

// Of two conditions the one with more values, the first where they have as many.
fn better(found: Cut, other: Cut) -> Cut
    ensures { Better found other.number other.values other.step result }
{
    if found.values < other.values {
        return other;
    }
    found
}

// The condition with most values, the lowest of them. The first place is better than what is found before it.
fn most_values(ks: [u8; PLACES]) -> Cut
    requires { Shaped ks }
    ensures { IsCut ks (most_values ks) result }
{
    let mut found = Cut {
        number: 0,
        values: 0,
        step: 1,
    };
    let mut step: usize = 1;
    for (number, card) in ks.iter().enumerate() {
        let values = usize::from(*card);
        let cut = Cut {
            number,
            values,
            step,
        };
        found = better(found, cut);
        step *= values;
    }
    found
}

// The condition that a split takes. Below the lowest there is none, so that its rows are single cells.
pub fn find(ks: [u8; PLACES], low: Condition, splits: SplitOn) -> Cut
    requires { Shaped ks × IsLowest ks low × (1 ≤ width ks) }
    ensures { IsCut ks (split_condition splits ks) result }
{
    match splits {
        SplitOn::Lowest => Cut {
            number: low.number,
            values: low.values,
            step: 1,
        },
        SplitOn::MostValues => most_values(ks),
    }
}
