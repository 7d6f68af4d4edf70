// What is said where a call of the system has failed.
ghost use Rattle.std.specs.Prelude.{◌≡◌, ◌≤◌, length, take};

use std::io::{Error, Write};

// Room for the longest text of an error, and for its number behind that.
const ROOM: usize = 320;

// A text up to its end, a 0, or to the number that the library puts behind the system's words.
fn words_of(text: &[u8]) -> &[u8]
    ensures bound { length result.now ≤ length text.now }
    ensures front { result.now ≡ take (length result.now) text.now }
{
    for (i, b) in text.iter().enumerate() {
        if *b == 0 || text[i..].starts_with(b" (os error ") {
            return &text[..i];
        }
    }
    text
}

// Says in a line what failed, a colon and the system's words for it. Where that cannot be written, there is nobody left to tell.
pub fn say_failed(errors: &impl Print, what: &[u8], why: Error) {
    let mut text = [0u8; ROOM];
    let mut room: &mut [u8] = &mut text;
    let _ = write!(room, "{why}");
    let _ = errors.write_all(what);
    let _ = print!(errors; ": ");
    let _ = errors.write_all(words_of(&text));
    let _ = println!(errors);
}
