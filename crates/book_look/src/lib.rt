// The records of a name in a book: its CAA records, or its CAA records and aliases, found along the chain of its key.
#![tactic(auto)]

ghost use Rattle.std.specs.Prelude.{◌≡◌};
ghost use Rattle.book_places.specs.Table.{owner_at};
ghost use Rattle.book_places.specs.Sets.{is_of_kind, is_owned_of, owned_of, owned_from, first_of, first_owned};

use book_places::{Index, Kind};
use spec_refusal::RecordNo;

// Whether record i is of this kind.
pub fn is_of_kind(table: &[u16], i: usize, kind: Kind) -> bool
    ensures { result ≡ is_of_kind kind table.now i }
{
    match kind {
        Kind::Caa => book_table::is_caa_at(table, i),
        Kind::CaaOrAlias => book_table::is_caa_at(table, i) || book_table::is_alias_at(table, i),
    }
}

// Whether record i is of this kind and has the owner x.
fn is_owned(index: Index, x: &[u8], i: usize, kind: Kind) -> bool
    ensures { result ≡ is_owned_of kind index.entry.book.now index.entry.table.now x.now i }
{
    is_of_kind(index.table, i, kind)
        && text_compare::same_ignoring_case(book_table::owner_at(index.book, index.table, i), x)
}

// The first record of this kind with the owner x in a chain, from a record on.
pub fn next_owned(index: Index, x: &[u8], from: usize, kind: Kind) -> Option<RecordNo>
    ensures { result ≡ first_of (owned_of kind index.entry.book.now index.entry.table.now index.entry.links.now x.now from) }
{
    let mut i = from;
    while i < index.links.len() {
        if is_owned(index, x, i, kind) {
            return Some(RecordNo(i));
        }
        i = book_chains::behind(index.links, i);
    }
    None
}

// The first record of a set in its chain, from record `from` on. The set is named by its first record. At that record the owner is not compared:
// it would be compared with itself.
pub fn next_in_set(index: Index, first: usize, from: usize) -> Option<RecordNo>
    ensures { result ≡ first_of (owned_from index.entry.book.now index.entry.table.now index.entry.links.now (owner_at index.entry.book.now index.entry.table.now first) from) }
{
    if from == first && first < index.links.len() && book_table::is_caa_at(index.table, first) {
        return Some(RecordNo(first));
    }
    next_owned(
        index,
        book_table::owner_at(index.book, index.table, first),
        from,
        Kind::Caa,
    )
}

// The first record of this kind with the owner x, if there is one.
pub fn first_owned(index: Index, x: &[u8], kind: Kind) -> Option<RecordNo>
    ensures { result ≡ first_owned kind index.entry.book.now index.entry.table.now index.entry.links.now index.entry.heads.now x.now }
{
    let key = book_keys::key_of(x);
    let head = index.heads.get(key)?;
    next_owned(index, x, usize::from(*head), kind)
}
