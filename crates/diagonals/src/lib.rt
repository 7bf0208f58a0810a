// What the diagonal-first form is worth: its share as theorems, in specs/ and proofs/. No code.

#![tactic(auto)]
