// No functions: the definitions in specs/ and the theorems in proofs/ alone.

#![tactic(auto)]
