// Writing the limits of a file that was accepted.
ghost use Rattle.std.specs.Prelude.{◌≡◌, ◌++◌, ◌/◌, length, replicate, drop};
ghost use Rattle.rules.specs.Cell.{cells};
ghost use Rattle.rules.specs.TableFile.{laid_over, listed_over};
ghost use Rattle.table_file.specs.Reading.{Room, RecordBelow, ListedBelow};

use rules::kinds::TableKind;
use rules::{Edition, PLACES, RECORD};

// Both limits of a cell record, at the cell that it names. Any other record writes nothing.
fn store_record(r: &[u8; RECORD], ks: [u8; PLACES], lower: &mut [u8], upper: &mut [u8])
    requires room { Room ks lower.old upper.old }
    requires below { RecordBelow r.now ks }
    ensures lower { lower.new ≡ laid_over r.now ks 1 lower.old }
    ensures upper { upper.new ≡ laid_over r.now ks 2 upper.old }
{
    if let Ok(TableKind::Cell(Edition::Ours)) = TableKind::try_from(r[0]) {
        let cell = places::number(ks, r, 8);
        lower[cell] = r[1];
        upper[cell] = r[2];
    }
}

// The same for every record of a file.
fn store(file: &[u8], ks: [u8; PLACES], lower: &mut [u8], upper: &mut [u8])
    requires room { Room ks lower.old upper.old }
    requires below { ListedBelow file.now ks }
    ensures lower { lower.new ≡ listed_over file.now ks 1 0 (length file.now / 16) lower.old }
    ensures upper { upper.new ≡ listed_over file.now ks 2 0 (length file.now / 16) upper.old }
{
    for r in file.as_chunks::<RECORD>().0 {
        store_record(r, ks, lower, upper);
    }
}

// The limits of every cell: what the file lists, over the same two for the cells that it doesn't.
pub fn write_limits(
    file: &[u8],
    ks: [u8; PLACES],
    least: u8,
    most: u8,
    lower: &mut [u8],
    upper: &mut [u8],
)
    requires room { Room ks lower.old upper.old }
    requires below { ListedBelow file.now ks }
    ensures lower { lower.new ≡ listed_over file.now ks 1 0 (length file.now / 16) (replicate (cells ks) least) ++ drop (cells ks) lower.old }
    ensures upper { upper.new ≡ listed_over file.now ks 2 0 (length file.now / 16) (replicate (cells ks) most) ++ drop (cells ks) upper.old }
{
    let n = places::cell_count(ks);
    lower[..n].fill(least);
    upper[..n].fill(most);
    store(file, ks, lower, upper);
}
