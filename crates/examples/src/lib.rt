// Theorems alone: the settled examples marked * (R16.1 to R16.3), of the definitions that the contracts cite.
#![tactic(auto)]
