// Refusals: an input breaks a rule, so nothing is decided.
#![tactic(auto)]

ghost use Rattle.std.specs.Prelude.{◌≡◌};
ghost use Rattle.spec_refusal.specs.Refusal.{number, place};

use spec_limits::{MAX_NAMES, MAX_RECORDS};

// The number of a name in a request, from 0.
#[derive(Clone, Copy)]
pub struct NameNo(pub usize);

// The number of a record in the book, from 0. All records count, CAA or not.
#[derive(Clone, Copy)]
pub struct RecordNo(pub usize);

// One case for each row of the requirements' table of refusals. specs/Refusal.antt gives each its number and place.
#[derive(Clone, Copy)]
pub enum Refusal {
    RequestTooLong,
    BadName(NameNo),
    TooManyNames,
    BadIssuer,
    BookTooLong,
    BadRecord(RecordNo),
    TooManyRecords,
    // The buffer is too short; how many octets the output needs.
    NoRoom(usize),
    BadLine,
    // A line, or its CAA data, is over its limit.
    LineTooLong,
    BadData,
    // The owner of this record has an alias and a CAA record, or two aliases.
    AliasConflict(RecordNo),
    // An answer comes to a session that is ended.
    SessionEnded,
    // The account text, the method text or both break a rule.
    BadAccountOrMethod,
}

// The number of a refusal in the table.
#[tactic(auto, unfolding(crate::specs::Refusal::number))]
pub fn number_of(r: Refusal) -> u64
    ensures { result ≡ number r }
{
    match r {
        Refusal::RequestTooLong => 1,
        Refusal::BadName(_) => 2,
        Refusal::TooManyNames => 3,
        Refusal::BadIssuer => 4,
        Refusal::BookTooLong => 5,
        Refusal::BadRecord(_) => 6,
        Refusal::TooManyRecords => 7,
        Refusal::NoRoom(_) => 8,
        Refusal::BadLine => 9,
        Refusal::LineTooLong => 10,
        Refusal::BadData => 11,
        Refusal::AliasConflict(_) => 12,
        Refusal::SessionEnded => 14,
        Refusal::BadAccountOrMethod => 15,
    }
}

// The place of a refusal: the number of a name or record, the octets needed, or 0.
#[tactic(auto, unfolding(crate::specs::Refusal::place, spec_limits::specs::Limits::max_names, spec_limits::specs::Limits::max_records))]
pub fn place_of(r: Refusal) -> usize
    ensures { result ≡ place r }
{
    match r {
        Refusal::BadName(k) => k.0,
        Refusal::BadRecord(k) | Refusal::AliasConflict(k) => k.0,
        Refusal::NoRoom(n) => n,
        Refusal::TooManyNames => MAX_NAMES,
        Refusal::TooManyRecords => MAX_RECORDS,
        Refusal::BadIssuer => 0,
        Refusal::RequestTooLong | Refusal::BookTooLong => 0,
        Refusal::BadLine | Refusal::LineTooLong | Refusal::BadData => 0,
        Refusal::SessionEnded | Refusal::BadAccountOrMethod => 0,
    }
}
