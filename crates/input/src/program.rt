// A program that answers the schedule of standard input on standard output. What goes wrong is said on standard error, in one line.
use crate::arguments::no_argument;
use crate::failure::say_failed;
use crate::read_input;
use std::env::Env;
use std::io;
use std::io::{Error, Read};

pub trait Program {
    const NAME: &'static str;

    // The line that `--help` prints.
    const USAGE: &'static [u8];

    // The line that is said of any other argument.
    const NONE_TAKEN: &'static [u8];

    fn answer(&self, out: &impl Print, schedule: &[u8]) -> io::Result<()>;
}

// The program's name and what failed are one piece.
fn say_program_failed<P: Program>(errors: &impl Print, what: &str, why: Error) {
    let _ = print!(errors; "{}: {what}", P::NAME);
    say_failed(errors, b"", why);
}

// Reads the input into a buffer, of which no more than that is looked at, and answers it.
fn answer_input<P: Program>(
    program: &P,
    out: &impl Print,
    input: &mut impl Read,
    errors: &impl Print,
    buffer: &mut [u8],
) {
    match read_input(input, buffer) {
        Err(why) => say_program_failed::<P>(errors, "reading standard input", why),
        Ok(length) => {
            if let Err(why) = program.answer(out, &buffer[..length]) {
                say_program_failed::<P>(errors, "writing standard output", why);
            }
        }
    }
}

// Runs a program that takes no argument, with room for its input.
pub fn run_program<P: Program>(
    program: &P,
    rt: &(impl Env + Print),
    input: &mut impl Read,
    errors: &impl Print,
    buffer: &mut [u8],
) {
    if no_argument(rt, errors, P::USAGE, P::NONE_TAKEN) {
        answer_input(program, rt, input, errors, buffer);
    }
}
