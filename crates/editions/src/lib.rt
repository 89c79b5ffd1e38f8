// Request 6: a table file of ours turned into one of the spreadsheet's edition, and back. The file
// is judged whole before a byte of the output is written.
#![tactic(auto)]

ghost use Rattle.std.specs.Prelude.{◌*◌, ◌≤◌, ◌≡◌, ◌++◌, length, drop};
ghost use Rattle.rules.specs.declared.Edition.TheVariants.{Ours, Spreadsheet};
ghost use Rattle.rules.specs.Bytes.{at, map_records};
ghost use Rattle.rules.specs.TableFile.{cell_kind};
ghost use Rattle.rules.specs.Editions.{cell_as_other, record_as_other};
ghost use Rattle.editions.specs.Converting.{Turnable, AllTurnable, Converts};

use rules::kinds::TableKind;
use rules::{Edition, RECORD, Refusal};
use tables::fill;

// A cell record of ours: the set of its grades in the place of its limits.
fn limits_to_set(r: &mut [u8])
    requires { (length r.old ≡ 16) × Turnable Ours r.old }
    ensures { r.new ≡ cell_as_other Ours r.old }
{
    let set = grade_sets::span(u32::from(r[1]), u32::from(r[2]));
    let [low, high, _, _] = set.to_le_bytes();
    r[0] = u8::from(TableKind::Cell(Edition::Spreadsheet));
    r[1] = 0;
    r[2] = low;
    r[3] = high;
}

// A cell record of the spreadsheet's: the least and the greatest grade of its set.
fn set_to_limits(r: &mut [u8])
    requires { (length r.old ≡ 16) × Turnable Spreadsheet r.old }
    ensures { r.new ≡ cell_as_other Spreadsheet r.old }
{
    let set = u16::from_le_bytes([r[2], r[3]]);
    r[0] = u8::from(TableKind::Cell(Edition::Ours));
    r[1] = grade_sets::least(set) as u8;
    r[2] = grade_sets::greatest(set) as u8;
    r[3] = 0;
}

// A record as one of the other edition. Any but a cell stays.
fn turn_record(r: &mut [u8], edition: Edition)
    requires { (length r.old ≡ 16) × (at r.old 0 ≡ cell_kind edition → Turnable edition r.old) }
    ensures { r.new ≡ record_as_other edition r.old }
{
    if r[0] == u8::from(TableKind::Cell(edition)) {
        match edition {
            Edition::Ours => limits_to_set(r),
            Edition::Spreadsheet => set_to_limits(r),
        }
    }
}

// The first records of a buffer, each where it stands. By number: of what is written to a slice's chunks, as_chunks_mut
// promises nothing.
fn turn_records(out: &mut [u8], count: usize, edition: Edition)
    requires { (16 * count ≤ length out.old) × AllTurnable edition out.old count }
    ensures { out.new ≡ map_records (record_as_other edition) out.old 0 count ++ drop (16 * count) out.old }
{
    for k in 0..count {
        let a = RECORD * k;
        let b = a + RECORD;
        turn_record(&mut out[a..b], edition);
    }
}

// A file of the given edition, turned into the other one.
pub fn convert(file: &[u8], out: &mut [u8], edition: Edition) -> Result<(), Refusal>
    ensures { Converts edition file.now out.old result out.new }
{
    table_file::judge(file, edition)?;
    if out.len() < file.len() {
        return Err(Refusal::ShortBuffer);
    }
    fill::unload(file, 0, out, file.len());
    turn_records(out, file.len() / RECORD, edition);
    Ok(())
}
