// The figures of the checks, told on standard output beside what they are held against.

#![tactic(auto)]

use certification::certified_count;
use correct_finals::correct_count;
use counted_links::links_in;
use frame::kind::CORRECT_FINAL;
use limits::MOST_BASES;
use message_text::message::{AtBase, first_identifiers};
use numbering::link_at;
use protocol::{Base, PRIME, SECONDARY};
use sum_of_tallies::tally_sum;
use suspect_text::missing::missing_verifies;
use suspect_text::pairs::suspect_pairs;
use suspects::suspect_count;
use tally::tally;
use vectors::list_tally;

// n² - 2t; 0 of more bases than a net has
fn sum_asked(n: u8, t: u8) -> usize {
    let bases = n as usize;
    if MOST_BASES < bases {
        return 0;
    }
    (bases * bases).saturating_sub(2 * t as usize)
}

// What the check made of the base.
fn verdict(state: u8) -> &'static str {
    match state {
        PRIME => "prime",
        SECONDARY => "secondary",
        _ => "runs on",
    }
}

// The tallies behind a sum, where every link has announced an identifier.
fn tallies(out: &impl Print, base: Base) {
    let _ = print!(out; "  tallies: {} has {}", base.own, tally(base, base.own));
    for i in 1..=links_in(base.n) {
        let g = link_at(base, i).announce;
        let _ = print!(out; ", {g} has {}", tally(base, g));
    }
    let _ = println!(out);
}

// What is behind the figures, where the sum is short or there are suspect pairs.
fn reasons(out: &impl Print, b: u8, base: Base, short: bool, suspected: bool) {
    if short {
        tallies(out, base);
    }
    if suspected {
        return suspect_pairs(out, b, base);
    }
    if short {
        return missing_verifies(out, b, base);
    }
}

pub fn prime(out: &impl Print, b: u8, base: Base) {
    let suspected = suspect_count(base);
    let certified = certified_count(base);
    let sum = tally_sum(base);
    let Base { n, t, state, .. } = base;
    let asked = sum_asked(n, t);
    let _ = print!(out;
        "{}, prime check: certified {certified}, {n} needed; sum {sum}, {asked} needed; ",
        AtBase(b)
    );
    let _ = println!(out; "suspects {suspected}, at most {t}; {}", verdict(state));
    // Every link has announced an identifier, and the sum is short all the same.
    let short = certified == n as usize && sum < asked;
    reasons(out, b, base, short, 0 < suspected)
}

// Of a base that had sent its Verify-Final: the second Correct-Final of a list would have it send one. It sent that for another list, as a
// base votes for a list with the second Correct-Final of it.
pub fn sent_before(out: &impl Print, b: u8, base: Base, kind: u8, v: [u32; MOST_BASES]) {
    if kind == CORRECT_FINAL && correct_count(base, v) == 2 {
        let _ = println!(out;
            "{} sends no Verify-Final: it has sent one before, of another list",
            AtBase(b)
        );
    }
}

// On the first n identifiers of v.
pub fn secondary(out: &impl Print, b: u8, base: Base, v: [u32; MOST_BASES]) {
    let Base { n, t, state, .. } = base;
    let (tally, needed, correct) = (list_tally(base, v), t as usize + 1, correct_count(base, v));
    let list = first_identifiers(&v, n as usize);
    let _ = print!(out;
        "{}, secondary check of{list}: tally {tally}, {needed} needed; ",
        AtBase(b)
    );
    let _ = println!(out; "Correct-Finals {correct}, 2 needed; {}", verdict(state));
}
