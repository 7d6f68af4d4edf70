// A line of a schedule as it stands, well formed or not: where its spaces are, its word and its fields, and the forms that there are.

#![tactic(auto)]

pub mod forms;
pub mod line;
pub mod spaces;
