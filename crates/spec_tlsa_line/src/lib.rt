// TLSA data as a line of text, the presentation format of RFC 6698 section 2.2: definitions and theorems.

#![tactic(auto)]
