// What is fixed by a code number: lengths and shapes (offer), and the parity tables as constants (tables).

#![tactic(auto)]

pub mod offer;
pub mod tables;
