// Certificate requests, given as the names to be certified: definitions and theorems, no code.

#![tactic(auto)]
