// Number 8 of document 01 in the row's own words: when a state record is refused.
// It holds the clauses in specs/ and the theorem in proofs/; no code. It uses the paper and its laws.
#![tactic(auto)]
