// Telemetry: the randomisers' sequences, and the taker of words out of a stream.

#![tactic(auto)]

pub mod sequences;
pub mod taker;
