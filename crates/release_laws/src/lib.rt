// Definitions alone: what a release does, over the definitions of its promise.
#![tactic(auto)]
