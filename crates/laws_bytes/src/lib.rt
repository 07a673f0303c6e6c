// Laws of bytes: the dots of a byte and of a cell, what bytes are read as, and what an outcome counts as.
// It holds theorems in proofs/, and in specs/ the definitions that they need besides; no code.
// It may use nothing but the paper.
#![tactic(auto)]
