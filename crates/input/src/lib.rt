// Standard input, read whole; what a program is called with; and what the programs that read a schedule have in common.

#![tactic(auto)]

pub mod arguments;
pub mod failure;
pub mod program;

ghost use Rattle.std.specs.Prelude.{◌≤◌, length, IfOk};

use std::io;
use std::io::Read;

// Reads until the buffer is full or the input ends: every read but the last brings a byte at least. Answers how many bytes were read, at
// the front of the buffer.
pub fn read_input(reader: &mut impl Read, buffer: &mut [u8]) -> io::Result<usize>
    ensures { IfOk result (λ n. n ≤ length buffer.old) }
{
    let mut done: usize = 0;
    for _ in 0..buffer.len() {
        let got = reader.read(&mut buffer[done..])?;
        if got == 0 {
            break;
        }
        done += got;
    }
    Ok(done)
}
