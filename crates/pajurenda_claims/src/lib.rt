// Theorems alone: the claims of requests #110, #111, #113 and #114, of what C calls.
#![tactic(auto)]
