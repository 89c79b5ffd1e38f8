// Compiling, forecasting, checking and evaluating, one cell or a list of them, for C: the shape is lent as ten bytes,
// and answers are numbers.
#![tactic(auto)]

ghost use Rattle.std.specs.Prelude.{◌≤◌, ◌<◌, ◌≡◌, length};
ghost use Rattle.rules.specs.Settings.{usual, settings_of};
ghost use Rattle.panel_answers.specs.Answers.{compile_number, FewRecords};
ghost use Rattle.panel_networks.specs.Compiles.{Compiles};
ghost use Rattle.panel_networks.specs.Forecasts.{with_word, Forecasts};
ghost use Rattle.panel_networks.specs.Checks.{Checks};
ghost use Rattle.panel_networks.specs.Evaluates.{Evaluates};
ghost use Rattle.panel_networks.specs.EvaluatesEach.{EvaluatesEach};

use rules::Refusal;
use shape::Shape;

// The bytes that the depth's buffer needs.
const WORD: usize = 2;

// The grade of a network at a cell. The work buffer has a byte for each record.
pub fn evaluate(network: &[u8], shape: &[u8], work: &mut [u8], cell: u32) -> u32
    ensures { Evaluates network.now shape.now cell work.old work.new result }
{
    match Shape::from_bytes(shape) {
        Ok(shape) => {
            panel_answers::of_evaluation(network::evaluate(network, shape, work, cell as usize))
        }
        Err(refusal) => panel_answers::of_evaluation(Err(refusal)),
    }
}

// The grade of a network at each cell of a list, 255 for a number that is no cell's; 0 once they are written. The
// work buffer has a byte for each record, that of the grades one for each number.
pub fn evaluate_each(
    network: &[u8],
    shape: &[u8],
    cells: &[u16],
    grades: &mut [u8],
    work: &mut [u8],
) -> u32
    ensures { EvaluatesEach network.now shape.now cells.now grades.old work.old result grades.new work.new }
{
    match Shape::from_bytes(shape) {
        Err(refusal) => panel_answers::of_refusal(refusal),
        Ok(shape) => {
            panel_answers::of_outcome(network::evaluate_each(network, shape, cells, grades, work))
        }
    }
}

// The network of a table, grown under settings: how many records were written. The work buffer has 32 bytes for each
// cell, the network buffer 16 for each of the most records that there can be.
pub fn compile_with(
    shape: &[u8],
    lower: &[u8],
    upper: &[u8],
    settings: u8,
    work: &mut [u8],
    network: &mut [u8],
) -> u32
    ensures { Compiles (settings_of settings) shape.now lower.now upper.now work.old network.old result work.new network.new }
{
    match Shape::from_bytes(shape) {
        Err(refusal) => panel_answers::of_refusal(refusal),
        Ok(shape) => {
            panel_answers::of_compile(compile::compile_with(
                shape,
                lower,
                upper,
                settings::of_byte(settings),
                work,
                network,
            ))
        }
    }
}

// The same under the usual settings.
pub fn compile(shape: &[u8], lower: &[u8], upper: &[u8], work: &mut [u8], network: &mut [u8]) -> u32
    ensures { Compiles usual shape.now lower.now upper.now work.old network.old result work.new network.new }
{
    compile_with(shape, lower, upper, 0, work, network)
}

// A number as two bytes, the low one first, at the front of a buffer.
fn put_word(buffer: &mut [u8], n: usize)
    requires { (n < 65536) × (2 ≤ length buffer.old) }
    ensures { buffer.new ≡ with_word n buffer.old }
{
    buffer[..WORD].copy_from_slice(&(n as u16).to_le_bytes());
}

// What the network of a table will have, grown under settings: how many records, and in two bytes, low first, the
// depth of gates under the last one. The work buffer has 32 bytes for each cell.
pub fn forecast_with(
    shape: &[u8],
    lower: &[u8],
    upper: &[u8],
    settings: u8,
    work: &mut [u8],
    depth: &mut [u8],
) -> u32
    ensures { Forecasts (settings_of settings) shape.now lower.now upper.now work.old depth.old result work.new depth.new }
{
    panel_answers::of_compile(forecast_lent(shape, lower, upper, settings, work, depth))
}

// The same, before its answer is a number.
fn forecast_lent(
    shape: &[u8],
    lower: &[u8],
    upper: &[u8],
    settings: u8,
    work: &mut [u8],
    depth: &mut [u8],
) -> Result<usize, Refusal>
    ensures few { FewRecords result }
    ensures foretold { Forecasts (settings_of settings) shape.now lower.now upper.now work.old depth.old (compile_number result) work.new depth.new }
{
    let shape = Shape::from_bytes(shape)?;
    if depth.len() < WORD {
        return Err(Refusal::ShortBuffer);
    }
    let how = settings::of_byte(settings);
    let told = compile::forecast_with(shape, lower, upper, how, work)?;
    put_word(depth, told.depth);
    Ok(told.records)
}

// The same under the usual settings.
pub fn forecast(shape: &[u8], lower: &[u8], upper: &[u8], work: &mut [u8], depth: &mut [u8]) -> u32
    ensures { Forecasts usual shape.now lower.now upper.now work.old depth.old result work.new depth.new }
{
    forecast_with(shape, lower, upper, 0, work, depth)
}

// Whether a network keeps within a table's limits: 0, or a number for the first cell outside and
// its grade there. The work buffer has a byte for each record.
pub fn check(network: &[u8], shape: &[u8], lower: &[u8], upper: &[u8], work: &mut [u8]) -> u32
    ensures { Checks network.now shape.now lower.now upper.now work.old result work.new }
{
    match Shape::from_bytes(shape) {
        Err(refusal) => panel_answers::of_refusal(refusal),
        Ok(shape) => panel_answers::of_check(network::check(network, shape, lower, upper, work)),
    }
}
