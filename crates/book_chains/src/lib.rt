// Chains through the records of a book: a chain holds the records whose owners have the same key, in the book's order. Every function accepts
// any numbers: reading past the end of a slice gives 0, and writing past it does nothing.
#![tactic(auto)]

ghost use Rattle.std.specs.Prelude.{◌≡◌, get_or, set};
ghost use Rattle.spec_limits.specs.Limits.{max_records};
ghost use Rattle.book_places.specs.Chains.{Chains, at_most, linked_below, behind};

use spec_limits::MAX_RECORDS;

// The record after record i in its chain, or the number of links if the chain ends there.
pub fn behind(links: &[u16], i: usize) -> usize
    ensures { result ≡ behind links.now i }
{
    let end = links.len();
    if end <= i {
        return end;
    }
    let next = links[i] as usize;
    if next <= i {
        return end;
    }
    next
}

// Reads the number at an index; 0 past the end.
fn number_at(xs: &[u16], at: usize) -> u16
    ensures { result ≡ get_or xs.now at 0 }
{
    match xs.get(at) {
        Some(x) => *x,
        None => 0,
    }
}

// Writes a number at an index; does nothing past the end. It writes by index: of a slice written through `get_mut` a proof knows only the length.
pub fn put_number(xs: &mut [u16], at: usize, x: u16)
    ensures { xs.new ≡ set xs.old at x }
{
    if at < xs.len() {
        xs[at] = x;
    }
}

// Puts each of the first n records at the front of the chain of its owner's key. The last record goes first, so that each chain is in the
// book's order.
pub fn link(book: &[u8], table: &[u16], n: usize, links: &mut [u16], heads: &mut [u16])
    ensures links { links.exit.now ≡ (linked_below book.now table.now (at_most max_records n) (record { links = links.entry.now; heads = heads.old })).links }
    ensures heads { heads.new ≡ (linked_below book.now table.now (at_most max_records n) (record { links = links.entry.now; heads = heads.old })).heads }
{
    for i in (0..n.min(MAX_RECORDS)).rev() {
        let key = book_keys::key_of(book_table::owner_at(book, table, i));
        put_number(links, i, number_at(heads, key));
        put_number(heads, key, i as u16);
    }
}
