// Reads a book once, and makes the table of its records, the chains through them, and the column of aliases.
#![tactic(auto)]

ghost use Rattle.std.specs.Prelude.{◌≡◌};
ghost use Rattle.book_fill.specs.Filled.{filled_table};
ghost use Rattle.book_index.specs.Indexes.{indexed_chains, indexed_onward};

use book_places::Index;

// The caller lends a table of zeros, and links, heads and a column that hold `END` everywhere, with room for the records of the book.
pub fn index_book(
    book: &[u8],
    table: &mut [u16],
    links: &mut [u16],
    heads: &mut [u16],
    onward: &mut [u16],
)
    ensures rows { table.new ≡ filled_table book.now table.old }
    ensures links { links.exit.now ≡ (indexed_chains book.now table.old (record { links = links.entry.now; heads = heads.old })).links }
    ensures heads { heads.new ≡ (indexed_chains book.now table.old (record { links = links.entry.now; heads = heads.old })).heads }
    ensures onward { onward.new ≡ indexed_onward book.now table.old (record { links = links.entry.now; heads = heads.old }) onward.old }
{
    let n = book_fill::fill_table(book, table);
    book_chains::link(book, table, n, links, heads);
    let index = Index {
        book,
        table,
        links,
        heads,
    };
    book_onward::point_aliases(index, n, onward);
}
