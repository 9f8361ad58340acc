// Definitions and theorems alone: what a whole boot log says, over the promises of `station`.
#![tactic(auto)]
