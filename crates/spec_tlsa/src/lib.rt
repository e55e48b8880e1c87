// TLSA records (RFC 6698): definitions and theorems, and the answer of the call that matches a certificate with them.
#![tactic(auto)]

use spec_refusal::{RecordNo, Refusal};

// Does a TLSA record of the service match the certificate or its key?
#[derive(Clone, Copy)]
pub enum Matching {
    // The first record that matches.
    Match(RecordNo),
    // Some record is usable, but none matches.
    NoMatch,
    NothingUsable,
    Refused(Refusal),
}
