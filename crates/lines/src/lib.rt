// The form of each line of a schedule, as definitions (specs/), and what several lines share: two numbers, bases of the net, and the
// event that a line names. A reader answers what the line names and the position behind its line feed; a line that breaks the form
// has no variant but the last.

#![tactic(auto)]

pub mod bases;
pub mod event;
