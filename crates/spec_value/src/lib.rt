// Values of issue and issuewild properties (RFC 8659 section 4.2): definitions and theorems, no code.

#![tactic(auto)]
