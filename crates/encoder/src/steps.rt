// No functions: the lists of steps in specs/, and in proofs/ that they solve for the parity.
