// A message of a burst, and its identifiers.
use frame::kind::{ANNOUNCE, CORRECT_FINAL, VERIFY};
use readings::read_numbers;
use std::fmt;

// `  base 3`, with which a line begins that tells of a base.
#[derive(Clone, Copy)]
pub struct AtBase(pub u8);

impl fmt::Display for AtBase {
    fn fmt<W: fmt::Write>(&self, f: &mut fmt::Formatter<W>) -> fmt::Result {
        write!(f, "  base {}", self.0)
    }
}

// Each behind a blank.
#[derive(Clone, Copy)]
pub struct Identifiers<'a>(pub &'a [u32]);

impl fmt::Display for Identifiers<'_> {
    fn fmt<W: fmt::Write>(&self, f: &mut fmt::Formatter<W>) -> fmt::Result {
        for g in self.0 {
            write!(f, " {g}")?;
        }
        Ok(())
    }
}

// As many as there are, up to a number.
pub fn first_identifiers(ids: &[u32], count: usize) -> Identifiers<'_> {
    Identifiers(ids.get(..count).unwrap_or(ids))
}

fn kind_word(kind: u8) -> &'static str {
    match kind {
        ANNOUNCE => "Announce",
        VERIFY => "Verify",
        CORRECT_FINAL => "Correct-Final",
        _ => "Verify-Final",
    }
}

// The message of a burst that is fit, in a net of n bases.
#[derive(Clone, Copy)]
pub struct BurstMessage<'a> {
    pub n: u8,
    pub burst: &'a [u8],
}

impl fmt::Display for BurstMessage<'_> {
    fn fmt<W: fmt::Write>(&self, f: &mut fmt::Formatter<W>) -> fmt::Result {
        let taken = read_numbers(self.n as usize, self.burst);
        write!(
            f,
            "{}{}",
            kind_word(taken.kind),
            first_identifiers(&taken.ids, taken.count)
        )
    }
}
