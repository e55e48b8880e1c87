// Who asks for a certificate, and the limits of RFC 8657 in an issue value: definitions and theorems, and the two texts as a call lends them.
#![tactic(auto)]

// The account at the CA and the validation method. A call lends both.
#[derive(Clone, Copy)]
pub struct Applicant<'a> {
    pub account: &'a [u8],
    pub method: &'a [u8],
}
