// What the queues are worth, as theorems about plain lists, in specs/ and proofs/. No code.

#![tactic(auto)]
