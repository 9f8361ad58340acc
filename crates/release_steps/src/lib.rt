// Definitions alone: the laws of the two steps of a release, setting and moving.
#![tactic(auto)]
