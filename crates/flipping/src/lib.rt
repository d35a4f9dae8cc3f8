// The flipping run: what it keeps (bounds), the bit of greatest excess (choice, narrow), the run (runs), how correct ends (endings).

#![tactic(auto)]

pub mod bounds;
pub mod choice;
pub mod endings;
pub mod narrow;
pub mod runs;
