// A word at a position of a text.

#![tactic(auto)]

ghost use Rattle.std.specs.Prelude.{◌≡◌};
ghost use Rattle.words.specs.Word.{word_at};

// The position behind a word.
#[derive(Clone, Copy)]
pub enum Word {
    Past(usize),
    Other,
}

// Whether the word w stands at a position.
pub fn word_at(s: &[u8], at: usize, w: &[u8]) -> Word
    ensures { result ≡ word_at s.now at w.now }
{
    let mut i = at;
    let mut j: usize = 0;
    while j < w.len() {
        if s.len() <= i {
            return Word::Other;
        }
        if s[i] == w[j] {
            i += 1;
            j += 1;
        } else {
            return Word::Other;
        }
    }
    Word::Past(i)
}
