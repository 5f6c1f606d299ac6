// Theorems alone: an accepted file's numbers are where its shape says, and a file that was written is read back, bit for
// bit.
#![tactic(auto)]
