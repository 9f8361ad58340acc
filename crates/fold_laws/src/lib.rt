// Theorems alone: what a fold gives.
#![tactic(auto)]
