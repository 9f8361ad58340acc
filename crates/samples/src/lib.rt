// Definitions alone: the sample table of document 01, its rows marked (P).
#![tactic(auto)]
