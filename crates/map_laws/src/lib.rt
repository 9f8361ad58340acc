// Request #111: its claims of the map and of the place, as theorems (specs/).
#![tactic(auto)]
