// The identity between two tables as a function, and the generator tables as constants for the program that tries every wrong digit.

#![tactic(auto)]

pub mod printed;
pub mod ties;
