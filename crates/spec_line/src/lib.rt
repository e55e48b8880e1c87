// CAA data as a line of text, the presentation format of RFC 8659 section 4.1.1: the answer of the two calls. The definitions are in specs/.
#![tactic(auto)]

use spec_refusal::Refusal;

// The length of the output, which is at the start of the caller's buffer; or the refusal.
