// Laws of the glass: it stays in step under any list of strokes, shown once over the module; and marks one after another are joined
// or change places.
// specs/ says what is kept, proofs/ shows it; there is no code.
// It may use the paper and the laws of the memory.
#![tactic(auto)]
