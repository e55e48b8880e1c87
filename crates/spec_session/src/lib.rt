// A session: a request for one name, decided as the records of one name after the other come in. The rules for it are in specs/.
#![tactic(auto)]

use spec_rule::Judgement;

// How many octets a text has room for.
pub const MAX_TEXT_OCTETS: usize = 256;

// The phases of a session: it asks for a name; a verdict stands.
pub const ASKING: usize = 1;

pub const DECIDED: usize = 2;

// A text of at most 256 octets: the first `length` of them.
#[repr(C)]
#[derive(Clone, Copy)]
pub struct Text {
    pub length: usize,
    pub octets: [u8; MAX_TEXT_OCTETS],
}

// What a caller keeps between two calls. Numbers come first, so that the layout has no gaps: 1,088 octets.
#[repr(C)]
#[derive(Clone, Copy)]
pub struct Session {
    // 1 while it asks for a name, 2 once a verdict stands. Any other number is an ended session without a verdict.
    pub phase: usize,
    // How many labels are taken off X (the requirements' "place").
    pub up: usize,
    // The number of the verdict, and its record.
    pub verdict: usize,
    pub rr: usize,
    // The requested name in wire form, as given, with its asterisk if it has one.
    pub name: Text,
    pub issuer: Text,
    pub account: Text,
    pub method: Text,
}

// What a call on a session answers.
#[derive(Clone, Copy)]
pub enum SessionAnswer {
    // A name is to be looked up: `length` octets of the kept name, from `offset`.
    Asks { offset: usize, length: usize },
    // A verdict, or a refusal.
    Judged(Judgement),
    // The verdict that a lookup failed.
    LookupFailed,
    // Asked for its state: the session is ended and has no verdict.
    NoVerdict,
}

// The answer of a step, and the session after it.
#[derive(Clone, Copy)]
pub struct Stepped {
    pub answer: SessionAnswer,
    pub session: Session,
}
