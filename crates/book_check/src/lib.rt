// Checks a whole book: its records (refusals 5, 6 and 7), and then conflicts between aliases and CAA records (refusal 12).
#![tactic(auto)]

ghost use Rattle.std.specs.Prelude.{◌≡◌, ◌*◌};
ghost use Rattle.spec_refusal.specs.Checks.{checked};
ghost use Rattle.spec_record.specs.Records.{conflict_at, book_refusal};
ghost use Rattle.book_places.specs.Table.{room_for};
ghost use Rattle.book_places.specs.Conflicts.{first_conflict};
ghost use Rattle.book_index.specs.Indexes.{Blank};

use book_places::{END, FEW_RECORDS, Index, SHORT_BOOK, SHORT_TABLE, TABLE};
use spec_limits::MAX_RECORDS;
use spec_refusal::Refusal;

// Refusal 12, by the table and the chains that are made in the lent arrays. These are empty, with room for the records of the book.
fn check_in(
    book: &[u8],
    table: &mut [u16],
    links: &mut [u16],
    heads: &mut [u16],
) -> Result<(), Refusal>
    requires { Blank book.now table.old links.old heads.old links.old }
    ensures { result ≡ checked (conflict_at (first_conflict book.now)) }
{
    let n = book_fill::fill_table(book, table);
    book_chains::link(book, table, n, links, heads);
    let index = Index {
        book,
        table,
        links,
        heads,
    };
    book_conflicts::check_conflicts(index)
}

// The same, with room for so many records, and for so many numbers in the table.
fn check_with<const RECORDS: usize, const CELLS: usize>(book: &[u8]) -> Result<(), Refusal>
    requires records { RECORDS ≡ room_for book.now }
    requires cells { CELLS ≡ 6 * RECORDS }
    ensures { result ≡ checked (conflict_at (first_conflict book.now)) }
{
    let mut table = [0u16; CELLS];
    let mut links = [END; RECORDS];
    let mut heads = [END; MAX_RECORDS];
    check_in(book, &mut table, &mut links, &mut heads)
}

// Refusal 12, for a book whose records are well formed. A short book gets short arrays.
fn check_aliases(book: &[u8]) -> Result<(), Refusal>
    ensures { result ≡ checked (conflict_at (first_conflict book.now)) }
{
    if book.len() <= SHORT_BOOK {
        return check_with::<FEW_RECORDS, SHORT_TABLE>(book);
    }
    check_with::<MAX_RECORDS, TABLE>(book)
}

// Refusals 5, 6, 7 and 12. A book without aliases has no conflict, so no table is made for it.
pub fn check_book(b: &[u8]) -> Result<(), Refusal>
    ensures { result ≡ checked (book_refusal b.now) }
{
    let aliased = read_record::check_records(b)?;
    if aliased {
        return check_aliases(b);
    }
    Ok(())
}
