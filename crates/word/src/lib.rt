// One word: as received, what is measured of it, what is made of a quiet one, in how many bits two differ.

#![tactic(auto)]

pub mod judging;
pub mod measured;
pub mod ownparity;
pub mod received;
pub mod unlike;
