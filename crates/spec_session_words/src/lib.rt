// The 64-bit word that each call on a session returns, and the session after the call. No code.

#![tactic(auto)]
