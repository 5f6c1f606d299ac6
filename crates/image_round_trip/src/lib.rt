// Theorems alone: an image that was written is read again, and an accepted image is what its own contents write.
#![tactic(auto)]
