// The demands for C: what the five calls over byte slices owe, carried over from the demands on document 01's definitions.
// specs/ has the statements, proofs/Demands the theorems; there is no code.
// It may use the paper and the laws of it, the demands, and the definitions of the C calls.
#![tactic(auto)]
