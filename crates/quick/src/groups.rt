// No functions: in specs/ what each place of a table adds to a group of checks, and in proofs/ that a group has the checks of a row.
