// Theorems alone: what a year of releases leaves, mended and folded (document 02, #110, #113, #114).
#![tactic(auto)]
