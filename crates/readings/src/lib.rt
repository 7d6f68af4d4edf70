// What a reading gives, as numbers and an array: a function that C calls returns no enum.

#![tactic(auto)]

ghost use Rattle.std.specs.Prelude.{◌≡◌};
ghost use Rattle.decoding.specs.Decoding.{id_array};
ghost use Rattle.reader.specs.Answers.{reading_of, stretch};
ghost use Rattle.readings.specs.ReadNumbers.{read_numbers};

use decoding::identifiers_at;
use frame::kind::NO_KIND;
use limits::MOST_BASES;
use reader::{Reading, read};

// Of reading a burst: the body is the count identifiers of the burst from start on, four bytes each.
#[repr(C)]
#[derive(Clone, Copy)]
pub struct ReadAnswer {
    pub refusal: u8,
    pub kind: u8,
    pub count: usize,
    pub start: usize,
    pub ids: [u32; MOST_BASES],
}

pub fn read_numbers(n: usize, burst: &[u8]) -> ReadAnswer
    ensures { result ≡ read_numbers (reading_of n burst.now) (id_array (stretch n burst.now)) }
{
    match read(n, burst) {
        Reading::Message { kind, count, start } => ReadAnswer {
            refusal: 0,
            kind,
            count: count as usize,
            start,
            ids: identifiers_at(burst, start, count),
        },
        Reading::Refused(number) => ReadAnswer {
            refusal: number,
            kind: NO_KIND,
            count: 0,
            start: 0,
            ids: [0u32; MOST_BASES],
        },
    }
}
