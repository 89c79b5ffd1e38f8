// Compiling a table to its network, and telling beforehand what that network will have.
#![tactic(auto)]

ghost use Rattle.std.specs.Prelude.{◌*◌, ◌≤◌, ◌≡◌, length};
ghost use Rattle.rules.specs.Settings.{usual, settings_of};
ghost use Rattle.rules.specs.Verdict.{outcome_of};
ghost use Rattle.rules.specs.CompileCall.{most_records, compile_room};
ghost use Rattle.compile.specs.Compiling.{table_rows, Accepted, Recorded, Compiles};
ghost use Rattle.compile.specs.Forecasting.{Forecasts};

use rules::{RECORD, Refusal, Settings};
use shape::Shape;
use stage_steps::gates::Extent;
use stages::Begin;
use tables::{fill, limits};

// What a network has: how many records, and the depth of gates under the last one.
#[derive(Clone, Copy)]
pub struct Figures {
    pub records: usize,
    pub depth: usize,
}

// The bytes of the work buffer for each cell.
const WORK: usize = 32;

// Writes the network of a table, grown under settings. The work buffer has 32 bytes for each cell, the network
// buffer 16 for each of the most records that there can be. The answer is how many records were written.
pub fn compile_with(
    shape: Shape,
    lower: &[u8],
    upper: &[u8],
    how: Settings,
    work: &mut [u8],
    network: &mut [u8],
) -> Result<usize, Refusal>
    ensures { Compiles how shape lower.now upper.now work.old network.old result work.new network.new }
{
    judge(shape, lower, upper, work.len(), network.len())?;
    let byte = settings::to_byte(how);
    let of = build(shape, lower, upper, byte, work, network);
    Ok(of.next)
}

// The same under the usual settings.
pub fn compile(
    shape: Shape,
    lower: &[u8],
    upper: &[u8],
    work: &mut [u8],
    network: &mut [u8],
) -> Result<usize, Refusal>
    ensures { Compiles usual shape lower.now upper.now work.old network.old result work.new network.new }
{
    compile_with(shape, lower, upper, settings::usual(), work, network)
}

// What the network of a table will have, if it is grown under settings. The work buffer is that of compiling; the
// stages are lent a network buffer without a byte, so that they count records and write none.
pub fn forecast_with(
    shape: Shape,
    lower: &[u8],
    upper: &[u8],
    how: Settings,
    work: &mut [u8],
) -> Result<Figures, Refusal>
    ensures { Forecasts how shape lower.now upper.now work.old result work.new }
{
    judge(shape, lower, upper, work.len(), longest_network())?;
    let byte = settings::to_byte(how);
    let of = build(shape, lower, upper, byte, work, &mut []);
    Ok(Figures {
        records: of.next,
        depth: of.depth,
    })
}

// The same under the usual settings.
pub fn forecast(
    shape: Shape,
    lower: &[u8],
    upper: &[u8],
    work: &mut [u8],
) -> Result<Figures, Refusal>
    ensures { Forecasts usual shape lower.now upper.now work.old result work.new }
{
    forecast_with(shape, lower, upper, settings::usual(), work)
}

// Rows 4, 10 and 5, with the lengths of the work and the network buffer. Settings change none of them.
fn judge(
    shape: Shape,
    lower: &[u8],
    upper: &[u8],
    work: usize,
    network: usize,
) -> Result<(), Refusal>
    ensures { result ≡ outcome_of (table_rows usual shape lower.now upper.now work network) }
{
    if !shape.sound() {
        return Err(Refusal::ShapeRange);
    }
    let cells = shape.cells();
    if !has_room(cells, lower.len(), upper.len(), work, network) {
        return Err(Refusal::ShortBuffer);
    }
    if !limits::limits_sound(lower, upper, shape.m, cells) {
        return Err(Refusal::GradeLimits);
    }
    Ok(())
}

fn most_records(cells: usize) -> usize
    requires { (1 ≤ cells) × (cells ≤ 1024) }
    ensures { result ≡ most_records cells }
{
    if cells == 1 { 1 } else { 3 * cells - 5 }
}

// The bytes of a network buffer that is long enough for every table.
fn longest_network() -> usize
    ensures { result ≡ 16 * most_records 1024 }
{
    RECORD * most_records(Shape::MAX_CELLS)
}

// Whether every lent buffer, by its length, is long enough.
fn has_room(cells: usize, lower: usize, upper: usize, work: usize, network: usize) -> bool
    requires { (1 ≤ cells) × (cells ≤ 1024) }
    ensures { result ≡ compile_room cells lower upper work network }
{
    cells <= lower
        && cells <= upper
        && WORK * cells <= work
        && RECORD * most_records(cells) <= network
}

// The stages of a table that no row stops. Its limits go to the front of the work buffer, where the first stage
// finds them; its records go to the network buffer, if that has room for all.
fn build(
    shape: Shape,
    lower: &[u8],
    upper: &[u8],
    how: u8,
    work: &mut [u8],
    network: &mut [u8],
) -> Extent
    requires { Accepted shape lower.now upper.now (length work.old) }
    ensures { Recorded (settings_of how) shape lower.now upper.now work.old network.old result work.new network.new }
{
    let cells = shape.cells();
    let end = WORK * cells;
    fill::load(work, lower, 0, cells);
    fill::load(work, upper, cells, cells);
    stages::stage(
        &mut work[..end],
        network,
        shape.places(),
        cells,
        shape.m,
        0,
        Begin::Fresh,
        false,
        how,
    )
}
