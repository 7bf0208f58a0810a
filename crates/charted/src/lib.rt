#![tactic(auto)]

// What the ledger tells of a history of slot calls, as theorems, in specs/ and proofs/. No code.
