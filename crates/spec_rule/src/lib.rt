// The answers of the two calls. The rules for them are in specs/.
#![tactic(auto)]

use spec_refusal::{NameNo, RecordNo, Refusal};

// How many labels are taken off X to reach the name that decides: 0 at X itself.
#[derive(Clone, Copy)]
pub struct LabelsOff(pub usize);

// Why issuance is not permitted: the requested name, the record that decides, and how far up it was found.
#[derive(Clone, Copy)]
pub struct Denial {
    pub name: NameNo,
    pub rr: RecordNo,
    pub up: LabelsOff,
}

// May this issuer issue for this request?
#[derive(Clone, Copy)]
pub enum Judgement {
    Permitted,
    // A critical property has an unknown tag.
    UnknownCritical(Denial),
    // The name is restricted, and not granted to this issuer.
    NotGranted(Denial),
    // A name that was looked at has too many aliases to follow.
    TooManyAliases(Denial),
    Refused(Refusal),
}

// Who may issue for this request? (The requirements' "who may issue".)
#[derive(Clone, Copy)]
pub enum PermittedIssuers {
    Anyone,
    // A list at the start of the buffer: how many names, and how many octets with the length octet of each.
    Listed { count: usize, octets: usize },
    Refused(Refusal),
}
