// Conflicts between aliases and CAA records of one owner (refusal 12), found by the table and the chains of a book.
#![tactic(auto)]

ghost use Rattle.std.specs.Prelude.{◌≡◌, ◌||◌, length};
ghost use Rattle.spec_refusal.specs.Checks.{checked};
ghost use Rattle.spec_record.specs.Records.{conflict_at};
ghost use Rattle.book_places.specs.Table.{is_alias_at};
ghost use Rattle.book_places.specs.Conflicts.{clashes_at, conflict_from};

use book_places::{Index, Kind};
use spec_refusal::{RecordNo, Refusal};

// Whether one of two records is an alias.
fn one_is_alias(table: &[u16], i: usize, j: usize) -> bool
    ensures { result ≡ is_alias_at table.now i || is_alias_at table.now j }
{
    book_table::is_alias_at(table, i) || book_table::is_alias_at(table, j)
}

// Whether record i is in conflict with the first CAA record or alias of its owner.
fn clashes_at(index: Index, i: usize) -> bool
    ensures { result ≡ clashes_at index.entry.book.now index.entry.table.now index.entry.links.now index.entry.heads.now i }
{
    if !book_look::is_of_kind(index.table, i, Kind::CaaOrAlias) {
        return false;
    }
    let owner = book_table::owner_at(index.book, index.table, i);
    match book_look::first_owned(index, owner, Kind::CaaOrAlias) {
        Some(r) => r.0 < i && one_is_alias(index.table, i, r.0),
        None => false,
    }
}

// Refusal 12, with the number of the first record that is in conflict.
pub fn check_conflicts(index: Index) -> Result<(), Refusal>
    ensures { result ≡ checked (conflict_at (conflict_from index.entry.book.now index.entry.table.now index.entry.links.now index.entry.heads.now 0 (length index.entry.links.now))) }
{
    for i in 0..index.links.len() {
        if clashes_at(index, i) {
            return Err(Refusal::AliasConflict(RecordNo(i)));
        }
    }
    Ok(())
}
