// The words in which it is told why a line of a schedule is refused: what a number means, and the line, a field or a byte of it as it is
// shown.

#![tactic(auto)]

pub mod meanings;
pub mod shown;
pub mod visible;
