// A message and its bytes: definitions and theorems in specs/, and the code that the writer and the reader share.

#![tactic(auto)]

pub mod kind;
pub mod size;
