// Reading for C: a table file to the ten bytes of its shape and its limits.
#![tactic(auto)]

ghost use Rattle.std.specs.Prelude.{◌≤◌, ◌≡◌, ◌++◌, length, drop};
ghost use Rattle.shape.specs.Shapes.{shape_bytes};
ghost use Rattle.panel_answers.specs.Answers.{call_number};
ghost use Rattle.panel_reads.specs.Reads.{no_room, Reads};

use rules::{Edition, Refusal};
use shape::Shape;

// The file's own refusal, and if it has none that of the short buffer.
fn no_room(file: &[u8]) -> u32
    ensures { result ≡ call_number (no_room file.now) (λ s. 0) }
{
    match table_file::judge(file, Edition::Ours) {
        Err(refusal) => panel_answers::of_refusal(refusal),
        Ok(_) => panel_answers::of_refusal(Refusal::ShortBuffer),
    }
}

// The ten bytes of a shape, at the front of a buffer.
fn put_shape(shape: Shape, to: &mut [u8])
    requires { 10 ≤ length to.old }
    ensures { to.new ≡ shape_bytes shape ++ drop 10 to.old }
{
    to[..Shape::BYTES].copy_from_slice(&shape.to_bytes());
}

// The table that a file holds: its shape's ten bytes, and its limits, or the number of a refusal.
pub fn read(file: &[u8], shape: &mut [u8], lower: &mut [u8], upper: &mut [u8]) -> u32
    ensures { Reads file.now shape.old lower.old upper.old result shape.new lower.new upper.new }
{
    if shape.len() < Shape::BYTES {
        return no_room(file);
    }
    match table_file::read_table(file, lower, upper) {
        Err(refusal) => panel_answers::of_refusal(refusal),
        Ok(table) => {
            put_shape(table, shape);
            0
        }
    }
}
