#![tactic(auto)]

// How far a slot is from the best: its bound as theorems, in specs/ and proofs/. No code.
