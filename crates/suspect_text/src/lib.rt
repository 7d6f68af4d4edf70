// What a prime check found to be missing, told on standard output: the suspect pairs, and which links lack which Verify.

#![tactic(auto)]

pub mod missing;
pub mod pairs;
