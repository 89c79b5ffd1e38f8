// What C programs call. Each shape that is lent is ten bytes: the number of conditions, the eight
// cardinalities, the number of grades.
#![tactic(auto)]

ghost use Rattle.rules.specs.declared.Edition.TheVariants.{Ours, Spreadsheet};
ghost use Rattle.rules.specs.declared.Gate.TheVariants.{Min, Max};
ghost use Rattle.panel_networks.specs.Evaluates.{Evaluates};
ghost use Rattle.panel_networks.specs.EvaluatesEach.{EvaluatesEach};
ghost use Rattle.panel_reads.specs.Reads.{Reads};
ghost use Rattle.panel_editions.specs.Converts.{Converts};
ghost use Rattle.panel_joins.specs.Joins.{JoinsFirst, JoinsSecond};
ghost use Rattle.rules.specs.Settings.{usual};
ghost use Rattle.rules.specs.Settings.{settings_of};
ghost use Rattle.panel_networks.specs.Compiles.{Compiles};
ghost use Rattle.panel_networks.specs.Forecasts.{Forecasts};
ghost use Rattle.panel_networks.specs.Checks.{Checks};

use rules::{Edition, Gate};

// The grade of a network at a cell. The work buffer has a byte for each record.
#[unsafe(no_mangle)]
pub extern "C" fn grades_evaluate(network: &[u8], shape: &[u8], work: &mut [u8], cell: u32) -> u32
    ensures { Evaluates network.now shape.now cell work.old work.new result }
{
    panel_networks::evaluate(network, shape, work, cell)
}

// The grade of a network at each cell of a list, 255 for a number that is no cell's. The work buffer
// has a byte for each record, that of the grades one for each number.
#[unsafe(no_mangle)]
pub extern "C" fn grades_evaluate_each(
    network: &[u8],
    shape: &[u8],
    cells: &[u16],
    grades: &mut [u8],
    work: &mut [u8],
) -> u32
    ensures { EvaluatesEach network.now shape.now cells.now grades.old work.old result grades.new work.new }
{
    panel_networks::evaluate_each(network, shape, cells, grades, work)
}

// The table that a file holds: its shape's ten bytes, and its limits.
#[unsafe(no_mangle)]
pub extern "C" fn grades_read(
    file: &[u8],
    shape: &mut [u8],
    lower: &mut [u8],
    upper: &mut [u8],
) -> u32
    ensures { Reads file.now shape.old lower.old upper.old result shape.new lower.new upper.new }
{
    panel_reads::read(file, shape, lower, upper)
}

// A file of ours in the spreadsheet's edition, whose cells have sets of grades.
#[unsafe(no_mangle)]
pub extern "C" fn grades_to_sets(file: &[u8], out: &mut [u8]) -> u32
    ensures { Converts Ours file.now out.old result out.new }
{
    panel_editions::convert(file, out, Edition::Ours)
}

// A file of the spreadsheet's edition in ours.
#[unsafe(no_mangle)]
pub extern "C" fn grades_from_sets(file: &[u8], out: &mut [u8]) -> u32
    ensures { Converts Spreadsheet file.now out.old result out.new }
{
    panel_editions::convert(file, out, Edition::Spreadsheet)
}

// The limits of a max join's first block.
#[unsafe(no_mangle)]
pub extern "C" fn grades_join_max_first(
    shape: &[u8],
    lower: &[u8],
    upper: &[u8],
    s: u8,
    t: u8,
    out_lower: &mut [u8],
    out_upper: &mut [u8],
) -> u32
    ensures { JoinsFirst Max shape.now lower.now upper.now s t out_lower.old out_upper.old result out_lower.new out_upper.new }
{
    panel_joins::first(Gate::Max, shape, lower, upper, s, t, out_lower, out_upper)
}

// The limits of a min join's first block.
#[unsafe(no_mangle)]
pub extern "C" fn grades_join_min_first(
    shape: &[u8],
    lower: &[u8],
    upper: &[u8],
    s: u8,
    t: u8,
    out_lower: &mut [u8],
    out_upper: &mut [u8],
) -> u32
    ensures { JoinsFirst Min shape.now lower.now upper.now s t out_lower.old out_upper.old result out_lower.new out_upper.new }
{
    panel_joins::first(Gate::Min, shape, lower, upper, s, t, out_lower, out_upper)
}

// The limits of a max join's second block, given the first.
#[unsafe(no_mangle)]
pub extern "C" fn grades_join_max_second(
    shape: &[u8],
    lower: &[u8],
    upper: &[u8],
    s: u8,
    t: u8,
    g: &[u8],
    out_lower: &mut [u8],
    out_upper: &mut [u8],
) -> u32
    ensures { JoinsSecond Max shape.now lower.now upper.now s t g.now out_lower.old out_upper.old result out_lower.new out_upper.new }
{
    panel_joins::second(
        Gate::Max,
        shape,
        lower,
        upper,
        s,
        t,
        g,
        out_lower,
        out_upper,
    )
}

// The limits of a min join's second block, given the first.
#[unsafe(no_mangle)]
pub extern "C" fn grades_join_min_second(
    shape: &[u8],
    lower: &[u8],
    upper: &[u8],
    s: u8,
    t: u8,
    g: &[u8],
    out_lower: &mut [u8],
    out_upper: &mut [u8],
) -> u32
    ensures { JoinsSecond Min shape.now lower.now upper.now s t g.now out_lower.old out_upper.old result out_lower.new out_upper.new }
{
    panel_joins::second(
        Gate::Min,
        shape,
        lower,
        upper,
        s,
        t,
        g,
        out_lower,
        out_upper,
    )
}

// The network of a table: how many records were written. The work buffer has 32 bytes for each
// cell, the network buffer 16 for each of the most records that there can be.
#[unsafe(no_mangle)]
pub extern "C" fn grades_compile(
    shape: &[u8],
    lower: &[u8],
    upper: &[u8],
    work: &mut [u8],
    network: &mut [u8],
) -> u32
    ensures { Compiles usual shape.now lower.now upper.now work.old network.old result work.new network.new }
{
    panel_networks::compile(shape, lower, upper, work, network)
}

// The same under settings, as a byte: bit 0, min wins ties; bit 1, a split takes the condition with most values; bit 2,
// no weak joins are tried. The other bits are not looked at.
#[unsafe(no_mangle)]
pub extern "C" fn grades_compile_with(
    shape: &[u8],
    lower: &[u8],
    upper: &[u8],
    settings: u8,
    work: &mut [u8],
    network: &mut [u8],
) -> u32
    ensures { Compiles (settings_of settings) shape.now lower.now upper.now work.old network.old result work.new network.new }
{
    panel_networks::compile_with(shape, lower, upper, settings, work, network)
}

// What the network of a table will have: how many records, and in two bytes, low first, the depth of gates under
// the last one. The work buffer has 32 bytes for each cell.
#[unsafe(no_mangle)]
pub extern "C" fn grades_forecast(
    shape: &[u8],
    lower: &[u8],
    upper: &[u8],
    work: &mut [u8],
    depth: &mut [u8],
) -> u32
    ensures { Forecasts usual shape.now lower.now upper.now work.old depth.old result work.new depth.new }
{
    panel_networks::forecast(shape, lower, upper, work, depth)
}

// The same under settings, as a byte.
#[unsafe(no_mangle)]
pub extern "C" fn grades_forecast_with(
    shape: &[u8],
    lower: &[u8],
    upper: &[u8],
    settings: u8,
    work: &mut [u8],
    depth: &mut [u8],
) -> u32
    ensures { Forecasts (settings_of settings) shape.now lower.now upper.now work.old depth.old result work.new depth.new }
{
    panel_networks::forecast_with(shape, lower, upper, settings, work, depth)
}

// Whether a network keeps within a table's limits: 0, or a number for the first cell outside and
// its grade there. The work buffer has a byte for each record.
#[unsafe(no_mangle)]
pub extern "C" fn grades_check(
    network: &[u8],
    shape: &[u8],
    lower: &[u8],
    upper: &[u8],
    work: &mut [u8],
) -> u32
    ensures { Checks network.now shape.now lower.now upper.now work.old result work.new }
{
    panel_networks::check(network, shape, lower, upper, work)
}
