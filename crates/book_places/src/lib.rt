// Types and sizes for finding records in a book. A call reads the book once, into a table with a row for each record, and then works with
// record numbers and offsets. The definitions are in specs/.
#![tactic(auto)]

use spec_limits::MAX_RECORDS;
use spec_record::PropertyTag;
use spec_refusal::RecordNo;

// How many numbers a row of the table has: owner offset, type, data offset, owner length (with the zero octet at its end), data length, class.
pub const ROW: usize = 6;

// How many numbers a table has.
pub const TABLE: usize = 6 * MAX_RECORDS;

// A short book has few records, because a record takes at least 11 octets: an owner of one octet, and ten octets of fixed fields.
pub const FEW_RECORDS: usize = 64;

pub const SHORT_BOOK: usize = 11 * FEW_RECORDS;

// How many numbers the table of a short book has.
pub const SHORT_TABLE: usize = 6 * FEW_RECORDS;

// The number that ends a chain. No record has it. Both its octets are the same, so an array of it is cleared as fast as one of zeros.
pub const END: u16 = 65535;

// A book, and what a call wrote down of it: the table of its records, the chains through them (for each record the next one in its chain), and the
// first record of the chain of each key.
#[derive(Clone, Copy)]
pub struct Index<'a> {
    pub book: &'a [u8],
    pub table: &'a [u16],
    pub links: &'a [u16],
    pub heads: &'a [u16],
}

// Which records a walk along a chain looks for. It is a value and not a closure, because the definitions in specs/Sets.antt choose the test by it.
#[derive(Clone, Copy)]
pub enum Kind {
    Caa,
    CaaOrAlias,
}

// The end of a climb: the record found, if there is one, and how many labels were taken off the name.
#[derive(Clone, Copy)]
pub struct Nearest {
    pub found: Option<RecordNo>,
    pub up: usize,
}

// The records that govern a name: those of the relevant set with one tag. `set` is the first record of the set, `first` the first record that
// governs.
#[derive(Clone, Copy)]
pub struct Governing {
    pub set: RecordNo,
    pub first: RecordNo,
    pub tag: PropertyTag,
}

// What CAA says about one requested name.
#[derive(Clone, Copy)]
pub enum NameAuthorization {
    Unrestricted,
    // The first critical record with an unknown tag.
    Forbidden(RecordNo),
    Governed(Governing),
    // The first alias, where there are too many to follow.
    Unresolved(RecordNo),
}
