// A burst that arrives, told on standard output: what was heard, on which link, and why it is refused or discarded. What it tells is read
// off the base as it was before.

#![tactic(auto)]

mod reason;
mod trailer;

use crate::reason::discarded_for;
use crate::trailer::Trailer;
use cause_text::meanings::number_meaning;
use cause_text::shown::CountOf;
use frame::kind::CORRECT_FINAL;
use held::HELD_VERIFY_FINAL;
use message_text::message::{AtBase, BurstMessage, first_identifiers};
use numbering::link_at;
use protocol::{Base, Link};
use readings::read_numbers;
use std::fmt;

// On which link a burst arrives, from which base or as if from it.
#[derive(Clone, Copy)]
pub struct Arrival {
    pub from: u8,
    pub link: usize,
    pub forged: bool,
}

impl fmt::Display for Arrival {
    fn fmt<W: fmt::Write>(&self, f: &mut fmt::Formatter<W>) -> fmt::Result {
        if self.forged {
            write!(f, "as if ")?;
        }
        write!(f, "from base {} on link {}", self.from, self.link)
    }
}

pub fn say_refused(out: &impl Print, b: u8, arrival: Arrival, burst: &[u8], refusal: u8) {
    let _ = print!(out;
        "{} hears {} {arrival}: ",
        AtBase(b),
        CountOf(burst.len(), "byte")
    );
    let _ = println!(out;
        "refused by {refusal}, {}{}",
        number_meaning(refusal as usize),
        Trailer { refusal, burst }
    );
}

// A Correct-Final takes the place of the Verify-Final that its link held.
fn replaces(held: Link, kind: u8) -> bool {
    held.held == HELD_VERIFY_FINAL && kind == CORRECT_FINAL
}

// The message that was not refused.
pub fn say_heard(
    out: &impl Print,
    b: u8,
    base: Base,
    arrival: Arrival,
    accepted: bool,
    burst: &[u8],
) {
    let n = base.n;
    let held = link_at(base, arrival.link);
    let taken = read_numbers(n as usize, burst);
    let _ = print!(out;
        "{} hears {} {arrival}: ",
        AtBase(b),
        BurstMessage { n, burst }
    );
    if !accepted {
        let _ = println!(out;
            "discarded, {}",
            discarded_for(base, held, taken.kind, taken.ids[0])
        );
        return;
    }
    if replaces(held, taken.kind) {
        let _ = println!(out;
            "accepted, in place of the link's Verify-Final of{}",
            first_identifiers(&held.list, n as usize)
        );
        return;
    }
    let _ = println!(out; "accepted");
}
