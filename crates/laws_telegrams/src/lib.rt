// Laws of addressed telegrams (document 02, order 4): what a good one is, which of a piece's is found, and what reading on gives.
// It holds no code.
#![tactic(auto)]
