// Issuer domain names as text: definitions and theorems, no code.

#![tactic(auto)]
