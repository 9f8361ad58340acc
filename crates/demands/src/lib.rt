// Definitions alone: demand 3 as it is written, over the definitions of the move, the sheet and the audit.
#![tactic(auto)]
