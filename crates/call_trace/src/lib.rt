// What a start or an arrival did, told on standard output: what was heard and broadcast, the figures of the check, and whether the base
// stops. What it tells are answers of the proved calls on the base as it was before.

#![tactic(auto)]

use arrival_text::{Arrival, say_heard, say_refused};
use arriving::arrive;
use c_answers::{ACCEPTED, REFUSED, outcome_numbers};
use change::changed_base;
use frame::kind::CORRECT_FINAL;
use leader_rule::leader_of;
use limits::OUTPUT_ROOM;
use message_text::call::BaseCall;
use message_text::message::{AtBase, first_identifiers};
use protocol::{Base, IDLE, PRIME};
use readings::read_numbers;
use starting::start;

// The list and the leader of a base that stops.
fn say_stop(out: &impl Print, b: u8, after: Base) {
    let Base {
        n,
        state,
        final_list,
        ..
    } = after;
    let word = if state == PRIME { "prime" } else { "secondary" };
    let _ = println!(out;
        "{} stops: {word}{} leader {}",
        AtBase(b),
        first_identifiers(&final_list, n as usize),
        leader_of(&final_list)
    );
}

// The check that follows an accepted message, at a base that may have sent its Verify-Final before.
fn checked(out: &impl Print, b: u8, sent: bool, after: Base, burst: &[u8]) {
    let taken = read_numbers(after.n as usize, burst);
    if taken.kind < CORRECT_FINAL {
        return check_text::prime(out, b, after);
    }
    if sent {
        check_text::sent_before(out, b, after, taken.kind, taken.ids);
    }
    check_text::secondary(out, b, after, taken.ids)
}

// A start at base b, which had made so many broadcasts.
pub fn show_start(out: &impl Print, b: u8, base: Base, made: usize) {
    if base.state != IDLE {
        let _ = println!(out; "{} has started: discarded", AtBase(b));
        return;
    }
    let mut frames = [0u8; OUTPUT_ROOM];
    let change = start(base, &mut frames);
    let call = BaseCall {
        b,
        n: base.n,
        made,
        stops: false,
        answer: outcome_numbers(change.outcome),
        frames: &frames,
    };
    call.say_start(out);
    call.say_slots(out)
}

// What a message led to that an idle base heard first.
fn answered_first(out: &impl Print, call: BaseCall, after: Base, burst: &[u8]) {
    call.say_behind_start(out);
    if call.answer.outcome == ACCEPTED {
        checked(out, call.b, false, after, burst);
    }
}

// What a message that was heard led to.
fn answered_running(out: &impl Print, call: BaseCall, sent: bool, after: Base, burst: &[u8]) {
    call.say_frames(out, false);
    if call.answer.outcome != ACCEPTED {
        return;
    }
    checked(out, call.b, sent, after, burst);
    if call.stops {
        call.say_frames(out, true);
        say_stop(out, call.b, after);
    }
}

// A message that was not refused, at a base as it was before and after.
fn arrived(
    out: &impl Print,
    call: BaseCall,
    base: Base,
    after: Base,
    arrival: Arrival,
    burst: &[u8],
) {
    let accepted = call.answer.outcome == ACCEPTED;
    if base.state == IDLE {
        call.say_start(out);
        say_heard(out, call.b, base, arrival, accepted, burst);
        return answered_first(out, call, after, burst);
    }
    say_heard(out, call.b, base, arrival, accepted, burst);
    answered_running(out, call, base.sent != 0, after, burst)
}

// A burst arrives at base b, which had made so many broadcasts.
pub fn show_arrival(
    out: &impl Print,
    b: u8,
    base: Base,
    made: usize,
    arrival: Arrival,
    burst: &[u8],
) {
    let mut frames = [0u8; OUTPUT_ROOM];
    let change = arrive(base, arrival.link, burst, &mut frames);
    let answer = outcome_numbers(change.outcome);
    if answer.outcome == REFUSED {
        return say_refused(out, b, arrival, burst, answer.refusal);
    }
    let after = changed_base(base, change);
    let call = BaseCall {
        b,
        n: after.n,
        made,
        stops: PRIME <= after.state,
        answer,
        frames: &frames,
    };
    arrived(out, call, base, after, arrival, burst);
    call.say_slots(out)
}
