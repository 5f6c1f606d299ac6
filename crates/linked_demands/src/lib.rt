// Theorems alone, of the C functions: demand 3, the start of `dot`, what a visit map shows, chains of the two calls that a
// step is made of, and a layer's coefficients to a file and back.
#![tactic(auto)]
