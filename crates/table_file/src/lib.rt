// Reading a table file: one pass judges every record, and only then a second pass writes the
// limits. Files of both editions are judged here, those of ours are read.
#![tactic(auto)]

ghost use Rattle.rules.specs.TableFile.{judge_file};
ghost use Rattle.table_records.specs.Records.{Judges};
ghost use Rattle.table_file.specs.Reading.{Read};

use rules::{Edition, RECORD, Refusal};
use shape::Shape;
use table_records::Seen;

mod writing;

// 01, Places where a call stops: the longest table file.
const MAX_LENGTH: usize = 16528;

// What a visit of a kind that the file does not list leaves at least: a plain line.
const UNLISTED_LOWER: u8 = 1;

// The verdict on a file of an edition, whatever buffers there are for what it holds.
pub fn judge(file: &[u8], edition: Edition) -> Result<Seen, Refusal>
    ensures { Judges (judge_file edition file.now) result }
{
    if file.is_empty() || file.len() % RECORD != 0 || MAX_LENGTH < file.len() {
        return Err(Refusal::FileLength);
    }
    table_records::records(file, edition)
}

// The shape of the table that a file holds, its limits being written to the two buffers, or why
// there is none.
pub fn read_table(file: &[u8], lower: &mut [u8], upper: &mut [u8]) -> Result<Shape, Refusal>
    ensures { Read file.now lower.old upper.old result lower.new upper.new }
{
    let shape = judge(file, Edition::Ours)?.shape;
    let cells = shape.cells();
    if lower.len() < cells || upper.len() < cells {
        return Err(Refusal::ShortBuffer);
    }
    let top = shape.m - 1;
    writing::write_limits(file, shape.places(), UNLISTED_LOWER, top, lower, upper);
    Ok(shape)
}
