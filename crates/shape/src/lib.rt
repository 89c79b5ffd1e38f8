// Shapes: how many conditions, their cardinalities, how many grades.
#![tactic(auto)]

ghost use Rattle.std.specs.Prelude.{◌≡◌, map, max};
ghost use Rattle.std.specs.List.{list_all, enumerate_from};
ghost use Rattle.rules.specs.Cell.{cells, card};
ghost use Rattle.rules.specs.Shape.{place_sound};
ghost use Rattle.shape.specs.Shapes.{cards_of, places_of, is_sound, new_shape, shape_of_bytes, shape_bytes, Makes};

use rules::{PLACES, Refusal};

// n conditions, the cardinality of each by its number, 0 beyond n, and m grades. A shape that is
// made by hand may hold anything: each call that is given one judges it.
#[derive(Clone, Copy)]
pub struct Shape {
    pub n: u8,
    pub c0: u8,
    pub c1: u8,
    pub c2: u8,
    pub c3: u8,
    pub c4: u8,
    pub c5: u8,
    pub c6: u8,
    pub c7: u8,
    pub m: u8,
}

impl Shape {
    pub const MAX_CONDITIONS: u8 = 8;

    pub const MAX_CARDINALITY: u8 = 8;

    pub const MAX_GRADES: u8 = 16;

    pub const MAX_CELLS: usize = 1024;

    pub const BYTES: usize = 10;

    pub fn new(n: u8, cards: [u8; PLACES], m: u8) -> Result<Shape, Refusal>
        ensures { Makes (new_shape n cards m) result }
    {
        let shape = Shape {
            n,
            c0: cards[0],
            c1: cards[1],
            c2: cards[2],
            c3: cards[3],
            c4: cards[4],
            c5: cards[5],
            c6: cards[6],
            c7: cards[7],
            m,
        };
        if shape.sound() {
            Ok(shape)
        } else {
            Err(Refusal::ShapeRange)
        }
    }

    // From the bytes that C lends: n, the eight cardinalities, m.
    pub fn from_bytes(bytes: &[u8]) -> Result<Shape, Refusal>
        ensures { Makes (shape_of_bytes bytes.now) result }
    {
        let &[n, c0, c1, c2, c3, c4, c5, c6, c7, m] = bytes else {
            return Err(Refusal::ShapeRange);
        };
        Shape::new(n, [c0, c1, c2, c3, c4, c5, c6, c7], m)
    }

    pub fn to_bytes(self) -> [u8; 10]
        ensures { result ≡ shape_bytes self }
    {
        [
            self.n, self.c0, self.c1, self.c2, self.c3, self.c4, self.c5, self.c6, self.c7, self.m,
        ]
    }

    // The cardinalities as bytes, 0 beyond n.
    pub fn cards(self) -> [u8; PLACES]
        ensures { result ≡ cards_of self }
    {
        [
            self.c0, self.c1, self.c2, self.c3, self.c4, self.c5, self.c6, self.c7,
        ]
    }

    // The places: the cardinalities, 1 where there is no condition.
    pub fn places(self) -> [u8; PLACES]
        ensures { result ≡ places_of self }
    {
        with_ones(self.cards())
    }

    // Whether this is a shape at all.
    pub fn sound(self) -> bool
        ensures { result ≡ is_sound self }
    {
        let cards = cards_sound(self.n, self.cards());
        self.n <= Shape::MAX_CONDITIONS
            && cards
            && 2 <= self.m
            && self.m <= Shape::MAX_GRADES
            && self.cells() <= Shape::MAX_CELLS
    }

    pub fn cells(self) -> usize
        ensures { result ≡ cells (places_of self) }
    {
        places::cell_count(self.places())
    }

    // The cardinality of condition i, 1 where there is none.
    pub fn cardinality(self, i: usize) -> usize
        ensures { result ≡ card (places_of self) i }
    {
        if PLACES <= i {
            return 1;
        }
        let ks = self.places();
        ks[i] as usize
    }
}

// 1 where there is no condition.
fn with_ones(cards: [u8; PLACES]) -> [u8; PLACES]
    ensures { result ≡ map (max 1) cards }
{
    cards.map(|card| card.max(1))
}

// Whether each of the first n is a cardinality, and the others are 0.
fn cards_sound(n: u8, cards: [u8; PLACES]) -> bool
    ensures { result ≡ list_all (λ ic. place_sound n ic.0 ic.1) (enumerate_from 0 cards) }
{
    cards
        .iter()
        .enumerate()
        .all(|(i, card)| place_sound(n, i, *card))
}

fn place_sound(n: u8, i: usize, card: u8) -> bool
    ensures { result ≡ place_sound n i card }
{
    if i < (n as usize) {
        2 <= card && card <= Shape::MAX_CARDINALITY
    } else {
        card == 0
    }
}
