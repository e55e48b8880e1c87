// Looks up one name in a book, and judges by what is found there. Nothing is looked up above the name.
#![tactic(auto)]

ghost use Rattle.std.specs.Prelude.{◌≡◌, ◌*◌};
ghost use Rattle.spec_applicant.specs.Applicants.{texts};
ghost use Rattle.book_places.specs.Table.{room_for};
ghost use Rattle.book_index.specs.Indexes.{Blank};
ghost use Rattle.session_look.specs.Looks.{Made, looked_by, looked_at};

use book_places::{END, FEW_RECORDS, Index, SHORT_BOOK, SHORT_TABLE, TABLE};
use spec_applicant::Applicant;
use spec_limits::MAX_RECORDS;
use spec_refusal::{NameNo, RecordNo};
use spec_rule::{Judgement, LabelsOff};

// Judges by the first record that was found. It names the set that decides. None if nothing was found.
fn by_first(
    issuer: &[u8],
    applicant: Applicant,
    index: Index,
    first: Option<RecordNo>,
    up: LabelsOff,
    wildcard: bool,
) -> Option<Judgement>
    ensures { result ≡ looked_by (texts applicant.entry) issuer.now index.entry.book.now index.entry.table.now index.entry.links.now up.0 wildcard first }
{
    let set = first?;
    Some(judge_set::judge_by_set(issuer, applicant, index, NameNo(0), set, up, wildcard))
}

// Looks up x by the table, the chains and the column of aliases of the book.
fn look_made(
    issuer: &[u8],
    applicant: Applicant,
    index: Index,
    onward: &[u16],
    x: &[u8],
    up: LabelsOff,
    wildcard: bool,
) -> Option<Judgement>
    requires { Made index.book.now index.table.now index.links.now index.heads.now onward.now }
    ensures { result ≡ looked_at (texts applicant.entry) issuer.now index.entry.book.now up.0 wildcard x.now }
{
    let first = book_onward::look_up(index, onward, x);
    by_first(issuer, applicant, index, first, up, wildcard)
}

// The lent arrays are empty, with room for the records of the book.
fn look_in(
    issuer: &[u8],
    applicant: Applicant,
    book: &[u8],
    x: &[u8],
    up: LabelsOff,
    wildcard: bool,
    table: &mut [u16],
    links: &mut [u16],
    heads: &mut [u16],
    onward: &mut [u16],
) -> Option<Judgement>
    requires { Blank book.now table.old links.old heads.old onward.old }
    ensures { result ≡ looked_at (texts applicant.entry) issuer.now book.now up.0 wildcard x.now }
{
    book_index::index_book(book, table, links, heads, onward);
    let index = Index {
        book,
        table,
        links,
        heads,
    };
    look_made(issuer, applicant, index, onward, x, up, wildcard)
}

// Looks up x with room for so many records, and for so many numbers in the table.
fn look_with<const RECORDS: usize, const CELLS: usize>(
    issuer: &[u8],
    applicant: Applicant,
    book: &[u8],
    x: &[u8],
    up: LabelsOff,
    wildcard: bool,
) -> Option<Judgement>
    requires records { RECORDS ≡ room_for book.now }
    requires cells { CELLS ≡ 6 * RECORDS }
    ensures { result ≡ looked_at (texts applicant.entry) issuer.now book.now up.0 wildcard x.now }
{
    let mut table = [0u16; CELLS];
    let mut links = [END; RECORDS];
    let mut heads = [END; MAX_RECORDS];
    let mut onward = [END; RECORDS];
    look_in(
        issuer,
        applicant,
        book,
        x,
        up,
        wildcard,
        &mut table,
        &mut links,
        &mut heads,
        &mut onward,
    )
}

// Looks up the name x, which is in wire form, and judges x or *.x by what is found.
pub fn look(
    issuer: &[u8],
    applicant: Applicant,
    book: &[u8],
    x: &[u8],
    up: LabelsOff,
    wildcard: bool,
) -> Option<Judgement>
    ensures { result ≡ looked_at (texts applicant.entry) issuer.now book.now up.0 wildcard x.now }
{
    // For a short book small arrays are enough, and are cleared faster.
    if book.len() <= SHORT_BOOK {
        look_with::<FEW_RECORDS, SHORT_TABLE>(issuer, applicant, book, x, up, wildcard)
    } else {
        look_with::<MAX_RECORDS, TABLE>(issuer, applicant, book, x, up, wildcard)
    }
}
