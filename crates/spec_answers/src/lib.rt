// The 64-bit word that each call returns: the number of the answer in bits 0 to 7, and its values in the fields above. No code.

#![tactic(auto)]
