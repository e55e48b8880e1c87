// Types for finding who may issue, by the table of a book. The definitions are in specs/.
// The candidates are an array of numbers, two for each, beside a count: the definitions of specs/ speak of such an array, and fixed memory holds it.
#![tactic(auto)]

use spec_record::PropertyTag;

// A tagged set: the records of a set that have one tag. The set is named by its first record.
#[derive(Clone, Copy)]
pub struct TaggedSet {
    pub set: usize,
    pub tag: PropertyTag,
}

// The grant of a record: the number of the record, and the offset and length of the issuer name in the book.
#[derive(Clone, Copy)]
pub struct Grant {
    pub rr: usize,
    pub at: u16,
    pub octets: u16,
}

// The issuers for all names of a request, if some name is restricted: those of the first `count` candidates that are in round `round`. Where no name
// is restricted, an answer is None: anyone may issue.
#[derive(Clone, Copy)]
pub struct Permitted {
    pub count: usize,
    pub round: usize,
}

impl Permitted {
    // Nobody may issue.
    pub const NOBODY: Permitted = Permitted { count: 0, round: 0 };
}
