// Byte 0 of a record says its kind.
ghost use Rattle.std.specs.Prelude.{◌≡◌};
ghost use Rattle.rules.specs.Kinds.{table_byte, TableByte, network_byte, NetworkByte};

use crate::{Edition, Gate};

// The records of a table file. The cells of the spreadsheet's edition have sets of grades.
#[derive(Clone, Copy)]
pub enum TableKind {
    Condition,
    Grades,
    Cell(Edition),
}

// The records of a network.
#[derive(Clone, Copy)]
pub enum NetworkKind {
    Constant,
    Literal,
    Gate(Gate),
}

// A byte that says no kind.
#[derive(Clone, Copy)]
pub struct UnknownKind;

impl From<TableKind> for u8 {
    ghost from_gives = { λ kind byte. byte ≡ table_byte kind };

    fn from(kind: TableKind) -> u8 {
        match kind {
            TableKind::Condition => 1,
            TableKind::Grades => 2,
            TableKind::Cell(Edition::Ours) => 3,
            TableKind::Cell(Edition::Spreadsheet) => 4,
        }
    }
}

impl TryFrom<u8> for TableKind {
    type Error = UnknownKind;

    ghost try_from_gives = { TableByte };

    fn try_from(byte: u8) -> Result<Self, UnknownKind> {
        match byte {
            1 => Ok(TableKind::Condition),
            2 => Ok(TableKind::Grades),
            3 => Ok(TableKind::Cell(Edition::Ours)),
            4 => Ok(TableKind::Cell(Edition::Spreadsheet)),
            _ => Err(UnknownKind),
        }
    }
}

impl From<NetworkKind> for u8 {
    ghost from_gives = { λ kind byte. byte ≡ network_byte kind };

    fn from(kind: NetworkKind) -> u8 {
        match kind {
            NetworkKind::Constant => 0,
            NetworkKind::Literal => 1,
            NetworkKind::Gate(Gate::Min) => 2,
            NetworkKind::Gate(Gate::Max) => 3,
        }
    }
}

impl TryFrom<u8> for NetworkKind {
    type Error = UnknownKind;

    ghost try_from_gives = { NetworkByte };

    fn try_from(byte: u8) -> Result<Self, UnknownKind> {
        match byte {
            0 => Ok(NetworkKind::Constant),
            1 => Ok(NetworkKind::Literal),
            2 => Ok(NetworkKind::Gate(Gate::Min)),
            3 => Ok(NetworkKind::Gate(Gate::Max)),
            _ => Err(UnknownKind),
        }
    }
}
