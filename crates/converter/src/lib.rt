// The programs that turn a table file into the other edition.
#![tactic(auto)]

ghost use Rattle.std.specs.Prelude.{◌≡◌, ◌≤◌, length, OnOk, IfSome, Err};
ghost use Rattle.std.specs.Io.KnownBytes.{Keeps};
ghost use Rattle.converter.specs.Replying.{Replies, Says};
ghost use Rattle.converter.specs.declared.Failure.{Failure};

use rules::Edition;
use std::io::{Read, Write};
use streams::INPUT;

// What a program writes for a file: so many bytes of the buffer, on standard output, or on standard error those of a
// refusal's line.
fn answer(out: &mut [u8], file: &[u8], edition: Edition) -> Result<usize, usize>
    requires { (length file.now ≤ length out.old) × (14 ≤ length out.old) }
    ensures { Replies edition file.now result out.new }
{
    match editions::convert(file, out, edition) {
        Ok(()) => Ok(file.len()),
        Err(refusal) => Err(listing::put_refusal(out, refusal)),
    }
}

// What kept a program from answering.
#[derive(Clone, Copy)]
pub enum Failure {
    // Standard input was not read to its end.
    Unread,
    // The file was not written to its end.
    Unwritten,
    // The refusal's line was not written to its end.
    Unsaid,
}

impl From<streams::Unread> for Failure {
    ghost from_gives = { λ _ failure. failure ≡ Failure.Unread };

    fn from(_unread: streams::Unread) -> Failure {
        Failure::Unread
    }
}

// A program for files of the given edition, but for its complaints.
pub fn turn<R: Read, W: Write, E: Write>(
    stdin: &mut R,
    stdout: &mut W,
    stderr: &mut E,
    edition: Edition,
) -> Result<(), Failure>
    ensures said { OnOk result (IfSome (R.remaining stdin.old) (λ file. Says edition file (W.contents stdout.old) (W.contents stdout.new) (E.contents stderr.old) (E.contents stderr.new))) }

    // Half a table file can be a table, so nothing is written for it.
    ensures unread_output { result ≡ Err Failure.Unread → Keeps (W.contents stdout.old) (W.contents stdout.new) }
    ensures unread_error { result ≡ Err Failure.Unread → Keeps (E.contents stderr.old) (E.contents stderr.new) }
{
    let mut file = [0u8; INPUT];
    let mut out = [0u8; INPUT];
    let len = streams::read_file(stdin, &mut file)?;
    match answer(&mut out, &file[..len], edition) {
        Ok(n) => stdout.write_all(&out[..n]).map_err(|_| Failure::Unwritten),
        Err(n) => stderr.write_all(&out[..n]).map_err(|_| Failure::Unsaid),
    }
}

// A program for files of the given edition, with what it says where standard input can't be read to
// its end, and where the file can't be written to its end.
pub fn run(
    stdin: &mut impl Read,
    stdout: &mut impl Write,
    stderr: &mut impl Write,
    edition: Edition,
    unread: &[u8],
    unwritten: &[u8],
) {
    match turn(stdin, stdout, stderr, edition) {
        Ok(()) => {}
        Err(Failure::Unread) => streams::complain(stderr, unread),
        Err(Failure::Unwritten) => streams::complain(stderr, unwritten),
        // who could be told?
        Err(Failure::Unsaid) => {}
    }
}
