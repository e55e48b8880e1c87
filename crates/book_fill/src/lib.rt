// Fills the table of a book: one row for each record whose fields can be read.
#![tactic(auto)]

ghost use Rattle.std.specs.Prelude.{◌≡◌, ◌++◌, ◌+◌, ◌*◌, ◌≤◌, length, take, drop};
ghost use Rattle.book_fill.specs.Filled.{RowFits, row_at, filled_table, filled_rows};

use read_record::RecordAt;
use spec_limits::{MAX_BOOK_OCTETS, MAX_RECORDS};

// Writes row n of the table: the row of the record r, which begins at offset `at` of the book.
fn put_row(table: &mut [u16], n: usize, at: usize, r: RecordAt)
    requires { (6 * n + 6 ≤ length table.old) × RowFits at r }
    ensures { table.new ≡ take (6 * n) table.old ++ (row_at at r ++ drop (6 * n + 6) table.old) }
{
    let w = 6 * n;
    table[w] = at as u16;
    table[w + 1] = r.rtype as u16;
    table[w + 2] = r.rdata as u16;
    table[w + 3] = (r.owner_end - at) as u16;
    table[w + 4] = (r.next - r.rdata) as u16;
    table[w + 5] = r.class as u16;
}

// Writes one row for each record of a book, as far as the table has room, and returns how many. The numbers after the rows stay as they are.
// A book over the limit gets no rows.
pub fn fill_table(book: &[u8], table: &mut [u16]) -> usize
    ensures answer { result ≡ filled_rows book.now table.old }
    ensures rows { table.new ≡ filled_table book.now table.old }
{
    if MAX_BOOK_OCTETS < book.len() {
        return 0;
    }
    let room = table.len() / 6;
    let mut at: usize = 0;
    let mut n: usize = 0;
    while n < MAX_RECORDS {
        if room <= n {
            return n;
        }
        let Some(r) = read_record::read_record_fields(book, at) else {
            return n;
        };
        put_row(table, n, at, r);
        at = r.next;
        n += 1;
    }
    n
}
