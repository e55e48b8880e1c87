// Domain names in wire form: definitions and theorems, no code.

#![tactic(auto)]
