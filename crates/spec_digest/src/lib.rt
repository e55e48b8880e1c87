// SHA-256 and SHA-512 (FIPS 180-4): padding, blocks, words, rounds, the digest. Definitions and theorems, no code.

#![tactic(auto)]
