// What the salvage of a damaged trace keeps, of a whole file and body by body, as theorems.

#![tactic(auto)]
