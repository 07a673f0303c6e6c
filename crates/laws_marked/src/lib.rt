// The marked cases of document 01 as one proved statement about the paper's definitions, and a case for each stroke's rule.
// It holds no code. It uses the paper and its laws.
#![tactic(auto)]
