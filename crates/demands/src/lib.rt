// What the scheduler is worth: the demands on it as theorems, in specs/ and proofs/. No code.

#![tactic(auto)]
