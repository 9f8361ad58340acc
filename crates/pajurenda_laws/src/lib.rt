// Theorems of the C calls: each promise admits one outcome, what the buffers hold, demand 1. No code.
#![tactic(auto)]
