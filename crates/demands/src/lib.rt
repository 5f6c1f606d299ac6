// Theorems alone, over the definitions that the contracts cite: demand 3 (R17.1), and the start of `dot` (R17.2).
#![tactic(auto)]
