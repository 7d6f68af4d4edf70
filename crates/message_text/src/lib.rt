// Messages in words: of a burst, and of the frames that a call broadcast, told on standard output.

#![tactic(auto)]

pub mod call;
pub mod message;
