// Octets: classes, letter case, comparison, labels, splitting and joining, sequences of items, readers. Definitions and theorems, no code.

#![tactic(auto)]
