// A decimal number at a position of a text. Every reader answers the position behind what it read.

#![tactic(auto)]

pub mod number;
