// Theorems alone: a release with the folded sheet.
#![tactic(auto)]
