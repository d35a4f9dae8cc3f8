// The encoder: lists of steps that solve the checks for the parity, over rows, for codes 1 to 3 and for codes 4 and 5.

#![tactic(auto)]

pub mod narrowparity;
pub mod parityrows;
pub mod solver;
pub mod steps;
pub mod wideparity;
