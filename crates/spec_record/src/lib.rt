// Resource records and CAA data: definitions and theorems.
#![tactic(auto)]

// The property tags that RFC 8659 defines; any other tag is unknown.
#[derive(Clone, Copy, PartialEq, Eq)]
pub enum PropertyTag {
    Issue,
    IssueWild,
    Iodef,
    Unknown,
}
