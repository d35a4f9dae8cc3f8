// The log: a line of it, and the log of a recording.

#![tactic(auto)]

pub mod line;
pub mod lines;
