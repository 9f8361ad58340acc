// Theorems alone: what a mending leaves, over the promises of `mend` and `audit`.
#![tactic(auto)]
