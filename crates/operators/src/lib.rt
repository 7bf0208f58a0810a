// Two operators on one shelf: what the one is given does not depend on what the other sends. No code.

#![tactic(auto)]
