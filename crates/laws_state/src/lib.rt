// Laws of the state: cursors in their windows, strokes in their range, an accepted state accepted, a held window's guest inside it.
// It holds theorems in proofs/, and in specs/ the records that they and code contracts cite; no code.
// It may use nothing but the paper and the laws of bytes and of the memory.
#![tactic(auto)]
