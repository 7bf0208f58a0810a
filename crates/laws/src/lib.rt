#![tactic(auto)]

// Laws that the proofs of the other crates share. No code.
