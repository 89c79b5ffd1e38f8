// The standard streams of the programs: a table file on standard input, complaints on standard
// error.
#![tactic(auto)]

ghost use Rattle.streams.specs.Filling.{Filled, Takes};

use std::io::{Read, Write};

// A byte more than the longest table file has, so that a longer input is refused.
pub const INPUT: usize = 16529;

// Standard input was not read to its end.
#[derive(Clone, Copy)]
pub struct Unread;

// How many bytes of the buffer are the file, or enough of it to tell that it is too long. Of a file that does not
// fill the buffer, all has to be read: a read that fails is no end.
pub fn read_file<R: Read>(stdin: &mut R, file: &mut [u8]) -> Result<usize, Unread>
    ensures filled { Filled result file.new }
    ensures taken { Takes (R.remaining stdin.old) result file.new }
{
    let mut len = 0;
    while len < file.len() {
        match stdin.read(&mut file[len..]) {
            Ok(0) => return Ok(len),
            Ok(count) => len += count,
            Err(_) => return Err(Unread),
        }
    }
    Ok(len)
}

pub fn complain(stderr: &mut impl Write, text: &[u8]) {
    let _ = stderr.write_all(text);
}
