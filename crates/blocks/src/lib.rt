// No functions: recordings in blocks of 512 octets, the definitions in specs/ and the theorems in proofs/.

#![tactic(auto)]

pub mod exporting;
pub mod framecheck;
pub mod importing;
