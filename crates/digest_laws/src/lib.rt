// Theorems alone: bytes in parts, and the standard's examples.
#![tactic(auto)]
