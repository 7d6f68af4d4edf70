// What a program is called with.
use std::env::{Env, FillError};

const HELP: usize = 6;

// Whether there is an argument of a number; number 0 is the program's name. There is no room for it here, and it is not wanted.
fn is_given(rt: &impl Env, i: usize) -> bool {
    !matches!(rt.arg(i, &mut []), Err(FillError::NotPresent))
}

// Whether the one argument is `--help`.
fn asks_help(rt: &impl Env) -> bool {
    let mut word = [0u8; HELP];
    !is_given(rt, 2) && rt.arg(1, &mut word).unwrap_or(0) == HELP && word == *b"--help"
}

// Whether a program is called with no argument. Where it is called for help its usage is printed, and with anything else it is said that
// none is taken. Where that cannot be written, there is nobody left to tell.
pub fn no_argument(
    rt: &(impl Env + Print),
    errors: &impl Print,
    usage: &[u8],
    none_taken: &[u8],
) -> bool {
    if asks_help(rt) {
        let _ = rt.write_all(usage);
        return false;
    }
    if !is_given(rt, 1) {
        return true;
    }
    let _ = errors.write_all(none_taken);
    false
}
