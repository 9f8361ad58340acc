// Theorems alone: export and import undo each other.
#![tactic(auto)]
