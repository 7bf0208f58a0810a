// What a history of C calls is worth: the demands as theorems over the lent bytes, in specs/ and proofs/. No code.

#![tactic(auto)]
