// Theorems alone, over the definitions that the contracts of the two calls cite: a step in two calls and batches joined
// (R17.5), demand 3 over a chain of calls (R17.6), and the start of `dot` where gradients are lent (R17.7).
#![tactic(auto)]
