// DER elements (X.690) and the layout of a certificate (RFC 5280 section 4.1): definitions and theorems.
#![tactic(auto)]

// The octets of a certificate, at most.
pub const MAX_CERTIFICATE_OCTETS: usize = 16384;
