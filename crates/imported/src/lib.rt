// What is imported of a capture: its promises as theorems, in specs/ and proofs/. No code.

#![tactic(auto)]
