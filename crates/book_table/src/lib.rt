// What the table of a book says about a record: its owner, its data, and whether it is a CAA record or an alias. Every function accepts any numbers:
// reading past the end of the table gives 0, and past the end of the book there are no octets.
#![tactic(auto)]

ghost use Rattle.std.specs.Prelude.{◌≡◌, ◌<◌};
ghost use Rattle.book_places.specs.Table.{cell, octets_at, owner_at, data_at, is_caa_at, is_alias_at};

use spec_limits::MAX_RECORDS;

// The number in one column of the row of record i.
fn cell(table: &[u16], i: usize, column: usize) -> usize
    requires { column < 6 }
    ensures { result ≡ cell table.now i column }
{
    if MAX_RECORDS <= i {
        return 0;
    }
    let at = 6 * i + column;
    if table.len() <= at {
        return 0;
    }
    table[at] as usize
}

// n octets from offset `at` on, or fewer if the text ends before.
pub fn octets_at(s: &[u8], at: usize, n: usize) -> &[u8]
    ensures { result.now ≡ octets_at s.now at n }
{
    let end = s.len();
    if end < at {
        return &s[0..0];
    }
    if end - at < n {
        return &s[at..end];
    }
    let e = at + n;
    &s[at..e]
}

// The owner of record i, in wire form with the zero octet at its end.
pub fn owner_at<'a>(book: &'a [u8], table: &[u16], i: usize) -> &'a [u8]
    ensures { result.now ≡ owner_at book.now table.now i }
{
    octets_at(book, cell(table, i, 0), cell(table, i, 3))
}

// The data of record i.
pub fn data_at<'a>(book: &'a [u8], table: &[u16], i: usize) -> &'a [u8]
    ensures { result.now ≡ data_at book.now table.now i }
{
    octets_at(book, cell(table, i, 2), cell(table, i, 4))
}

// Where the data of record i begins in the book.
pub fn data_offset(table: &[u16], i: usize) -> usize
    ensures { result ≡ cell table.now i 2 }
{
    cell(table, i, 2)
}

// Whether record i is a CAA record, by its type and its class.
pub fn is_caa_at(table: &[u16], i: usize) -> bool
    ensures { result ≡ is_caa_at table.now i }
{
    read_record::is_caa(cell(table, i, 1), cell(table, i, 5))
}

// Whether record i is an alias.
pub fn is_alias_at(table: &[u16], i: usize) -> bool
    ensures { result ≡ is_alias_at table.now i }
{
    read_record::is_alias(cell(table, i, 1), cell(table, i, 5))
}
