// Theorems alone: what is mended could have been released.
#![tactic(auto)]
