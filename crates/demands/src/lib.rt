// The three demands: what the five calls owe, each a theorem about document 01's definitions, to be read from top to bottom.
// specs/ has the statements, proofs/Demands the theorems; there is no code.
// It may use the paper and the laws of it.
#![tactic(auto)]
