// Texts put at a place of an output. A text that does not fit is not written, and the place stays.

#![tactic(auto)]

ghost use Rattle.std.specs.Prelude.{◌≡◌, ◌+◌, leb};
ghost use Rattle.print.specs.Put.{text_end, text_output};

// Whether an output of that length has so much room from a place on.
pub fn has_room(length: usize, at: usize, room: usize) -> bool
    ensures { result ≡ leb (at + room) length }
{
    if length < room {
        return false;
    }
    if length - room < at {
        return false;
    }
    true
}

// A text at a place; the answer is the place behind it.
pub fn put_text(out: &mut [u8], at: usize, text: &[u8]) -> usize
    ensures value { result ≡ text_end out.old at text.now }
    ensures out_after { out.new ≡ text_output out.old at text.now }
{
    if !has_room(out.len(), at, text.len()) {
        return at;
    }
    let mut j: usize = 0;
    while j < text.len() {
        out[at + j] = text[j];
        j += 1;
    }
    at + j
}
