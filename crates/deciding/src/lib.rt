// What a base decides once it has accepted a message: the vote, the prime check, the secondary check.

#![tactic(auto)]

ghost use Rattle.std.specs.Prelude.{◌≡◌};
ghost use Rattle.lists.specs.Choice.{choose};
ghost use Rattle.deciding.specs.Deciding.{prime_decision, secondary_decision, decision_of};
ghost use Rattle.deciding.specs.Deciding.Laws.{runs_with, echo_of, votes_on, vector_decision};

use checks::{is_prime, is_secondary, is_vote};
use frame::kind::{ANNOUNCE, CORRECT_FINAL, NO_KIND, VERIFY, VERIFY_FINAL};
use limits::MOST_BASES;
use protocol::{Base, PRIME, SECONDARY};
use sorting::certified_sorted;

// The kind of the frame that is broadcast before the check, zero for none; whether a Verify-Final was sent; whether the check stops
// the base, and its state and final list then.
#[derive(Clone, Copy)]
pub struct Decision {
    pub first: u8,
    pub sent: u8,
    pub stops: bool,
    pub state: u8,
    pub final_list: [u32; MOST_BASES],
}

fn runs_on(state: u8, kept: [u32; MOST_BASES], first: u8, sent: u8) -> Decision
    ensures { result ≡ runs_with state kept first sent }
{
    Decision {
        first,
        sent,
        stops: false,
        state,
        final_list: kept,
    }
}

fn prime_decision(base: Base, kept: [u32; MOST_BASES], first: u8) -> Decision
    requires { kept ≡ base.final_list }
    ensures { result ≡ prime_decision base first }
{
    if !is_prime(base) {
        return runs_on(base.state, kept, first, base.sent);
    }
    let list = certified_sorted(base);
    Decision {
        first,
        sent: base.sent,
        stops: true,
        state: PRIME,
        final_list: list,
    }
}

// On the first n identifiers of v.
fn secondary_decision(
    base: Base,
    kept: [u32; MOST_BASES],
    first: u8,
    sent: u8,
    v: [u32; MOST_BASES],
) -> Decision
    requires { kept ≡ base.final_list }
    ensures { result ≡ secondary_decision base first sent v }
{
    if !is_secondary(base, v) {
        return runs_on(base.state, kept, first, sent);
    }
    Decision {
        first,
        sent,
        stops: true,
        state: SECONDARY,
        final_list: v,
    }
}

// Whether a vote is broadcast: a Verify-Final, after a Correct-Final alone.
fn votes_on(base: Base, kind: u8, v: [u32; MOST_BASES]) -> bool
    ensures { result ≡ votes_on base kind v }
{
    if kind != CORRECT_FINAL {
        return false;
    }
    is_vote(base, v)
}

fn vote_kind(vote: bool) -> u8
    ensures { result ≡ choose vote 4 0 }
{
    if vote {
        return VERIFY_FINAL;
    }
    NO_KIND
}

fn sent_with(vote: bool, sent: u8) -> u8
    ensures { result ≡ choose vote 1 sent }
{
    if vote {
        return 1;
    }
    sent
}

// The vote, then the secondary check.
fn vector_decision(base: Base, kept: [u32; MOST_BASES], kind: u8, v: [u32; MOST_BASES]) -> Decision
    requires { kept ≡ base.final_list }
    ensures { result ≡ vector_decision base kind v }
{
    let vote = votes_on(base, kind, v);
    secondary_decision(base, kept, vote_kind(vote), sent_with(vote, base.sent), v)
}

// The kind by which an Announce is echoed, zero for a Verify.
fn echo_of(kind: u8) -> u8
    ensures { result ≡ echo_of kind }
{
    if kind == ANNOUNCE {
        return VERIFY;
    }
    NO_KIND
}

// Of a base that has accepted a message of a kind and its identifiers.
pub fn decide(base: Base, kind: u8, ids: [u32; MOST_BASES]) -> Decision
    ensures { result ≡ decision_of base kind ids }
{
    let kept = base.final_list;
    if VERIFY_FINAL < kind {
        return runs_on(base.state, kept, NO_KIND, base.sent);
    }
    if VERIFY < kind {
        return vector_decision(base, kept, kind, ids);
    }
    if kind == NO_KIND {
        return runs_on(base.state, kept, NO_KIND, base.sent);
    }
    prime_decision(base, kept, echo_of(kind))
}
