// Reads a table file on standard input and prints the network that it compiles to.
#![tactic(auto)]

ghost use Rattle.std.specs.Prelude.{◌≡◌, OnOk, OnErr, IfOk, IfErr, IfSome, Err};
ghost use Rattle.std.specs.Io.KnownBytes.{Appends, Keeps};
ghost use Rattle.rules.specs.Listing.{refusal_line, answer_to};
ghost use Rattle.listing.specs.Putting.{Put};
ghost use Rattle.grades.specs.declared.Failure.{Failure};

use listing::{put_listing, put_refusal};
use rules::Refusal;
use shape::Shape;
use std::io::{Read, Write};
use streams::INPUT;

// What a listing can have at most: 62 bytes for each of 3,067 records, and 14 for the last line.
const LISTING: usize = 190168;

// What compiling the largest table needs: 32 bytes for each of 1,024 cells, and 16 for each record.
const WORK: usize = 32768;

const NETWORK: usize = 49072;

// The listing of the network that a file's table compiles to.
fn list_file(out: &mut [u8; LISTING], file: &[u8]) -> Result<usize, Refusal>
    ensures listed { IfOk result (λ n. Put out.old 0 (answer_to file.now) 190168 n out.new) }
    ensures refused { IfErr result (λ q. answer_to file.now ≡ refusal_line q) }
    ensures kept { OnErr result (out.new ≡ out.old) }
{
    let mut lower = [0u8; Shape::MAX_CELLS];
    let mut upper = [0u8; Shape::MAX_CELLS];
    let mut work = [0u8; WORK];
    let mut network = [0u8; NETWORK];
    let shape = table_file::read_table(file, &mut lower, &mut upper)?;
    let count = compile::compile(shape, &lower, &upper, &mut work, &mut network)?;
    Ok(put_listing(out, &network, count, shape))
}

// What is printed for a file.
fn answer(out: &mut [u8; LISTING], file: &[u8]) -> usize
    ensures { Put out.old 0 (answer_to file.now) 190168 result out.new }
{
    match list_file(out, file) {
        Ok(n) => n,
        Err(refusal) => put_refusal(out, refusal),
    }
}

// What kept the program from answering.
#[derive(Clone, Copy)]
enum Failure {
    // Standard input was not read to its end.
    Unread,
    // The listing was not written to its end.
    Unwritten,
}

impl From<streams::Unread> for Failure {
    ghost from_gives = { λ _ failure. failure ≡ Failure.Unread };

    fn from(_unread: streams::Unread) -> Failure {
        Failure::Unread
    }
}

// The whole program but its complaints.
fn run<R: Read, W: Write>(stdin: &mut R, stdout: &mut W) -> Result<(), Failure>
    ensures printed { OnOk result (IfSome (R.remaining stdin.old) (λ file. Appends (W.contents stdout.old) (W.contents stdout.new) (answer_to file))) }

    // Half a table file can be a table, so nothing is printed for it.
    ensures unread { result ≡ Err Failure.Unread → Keeps (W.contents stdout.old) (W.contents stdout.new) }
{
    let mut file = [0u8; INPUT];
    let mut out = [0u8; LISTING];
    let len = streams::read_file(stdin, &mut file)?;
    let n = answer(&mut out, &file[..len]);
    stdout.write_all(&out[..n]).map_err(|_| Failure::Unwritten)
}

fn main(rt: HostRuntime) {
    match run(&mut rt.stdin(), &mut rt.stdout()) {
        Ok(()) => {}
        Err(Failure::Unread) => streams::complain(
            &mut rt.stderr(),
            b"grades: standard input was not read to its end\n",
        ),
        Err(Failure::Unwritten) => streams::complain(
            &mut rt.stderr(),
            b"grades: the listing was not written to its end\n",
        ),
    }
}
