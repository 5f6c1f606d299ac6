// Theorems alone: a header's text is read exactly where it is one by the grammar, and what is read is what it says.
#![tactic(auto)]
