// The types that the rules of document 01 speak of. The rules themselves are definitions, in specs/.
#![tactic(auto)]

ghost use Rattle.std.specs.Prelude.{◌≡◌};
ghost use Rattle.rules.specs.Refusal.{refusal_number};

pub mod kinds;

// The bytes of a record, in table files and in networks.
pub const RECORD: usize = 16;

// The places of a shape: one for each condition that there can be.
pub const PLACES: usize = 8;

// In the grades of a list of cells, the byte of a number that is no cell's. Every grade is below it.
pub const NO_CELL: u8 = 255;

// 01, Joins: the gate that combines two blocks, and the gate of a network's record.
#[derive(Clone, Copy)]
pub enum Gate {
    Min,
    Max,
}

// Request 6: whose table file it is. Ours has a lower and an upper grade for each cell that it lists,
// the spreadsheet's a set of grades.
#[derive(Clone, Copy)]
pub enum Edition {
    Ours,
    Spreadsheet,
}

// Request 8: the condition that a split takes.
#[derive(Clone, Copy)]
pub enum SplitOn {
    // The one with the lowest number.
    Lowest,
    // The one with most values; the lowest number on a tie.
    MostValues,
}

// Request 8: how a network is grown.
#[derive(Clone, Copy)]
pub struct Settings {
    // The gate that wins a full tie in step 4.
    pub tie: Gate,
    pub splits: SplitOn,
    // Whether weak joins are tried.
    pub weak: bool,
}

// 01, Places where a call stops, and the requests after it: a case for each row. specs/Refusal.antt gives each its number.
#[derive(Clone, Copy)]
pub enum Refusal {
    // The table file's length.
    FileLength,
    // A table record of unknown kind, or with a byte set that must be zero.
    RecordBytes,
    // A table record out of order, or no grades record.
    RecordOrder,
    // Conditions, a cardinality, grades or cells outside a shape's limits.
    ShapeRange,
    // A cell's limits out of order, or not below the grades.
    GradeLimits,
    // A cell record with a value that its condition lacks, or not after the cell before.
    CellValues,
    // Sets that are empty, overlap, or name a condition that is not there.
    Sets,
    // The join does not exist.
    NoJoin,
    // A first block outside its limits, or dependent on the second set.
    FirstBlock,
    // A lent buffer is too short.
    ShortBuffer,
    // A network of a wrong length, or with a faulty record.
    Network,
    // A cell number that the table does not have.
    CellNumber,
    // A cell's set that no two limits say: with no grade, with one missing in between, or not below m.
    GradeSet,
}

impl Refusal {
    pub fn number(self) -> u32
        ensures { result ≡ refusal_number self }
    {
        match self {
            Refusal::FileLength => 1,
            Refusal::RecordBytes => 2,
            Refusal::RecordOrder => 3,
            Refusal::ShapeRange => 4,
            Refusal::GradeLimits => 5,
            Refusal::CellValues => 6,
            Refusal::Sets => 7,
            Refusal::NoJoin => 8,
            Refusal::FirstBlock => 9,
            Refusal::ShortBuffer => 10,
            Refusal::Network => 11,
            Refusal::CellNumber => 12,
            Refusal::GradeSet => 13,
        }
    }
}
