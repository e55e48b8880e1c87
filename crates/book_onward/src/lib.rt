// Aliases in a book: for each alias the first CAA record or alias of its target, found once for a call; and lookups that follow them.
#![tactic(auto)]

ghost use Rattle.std.specs.Prelude.{◌≡◌, ◌%◌};
ghost use Rattle.book_places.specs.declared.Kind.TheVariants.{CaaOrAlias};
ghost use Rattle.book_places.specs.Sets.{first_owned, onward_at, resolved_from, looked_up_at};
ghost use Rattle.book_places.specs.Onward.{number_found, pointed, pointed_below};

use book_places::{END, Index, Kind};
use spec_limits::MAX_ALIASES;
use spec_refusal::RecordNo;

// The number of the first CAA record or alias with the owner x, in 16 bits; `END` if there is none.
fn first_number(index: Index, x: &[u8]) -> u16
    ensures { result ≡ number_found (first_owned CaaOrAlias index.entry.book.now index.entry.table.now index.entry.links.now index.entry.heads.now x.now) % 65536 }
{
    match book_look::first_owned(index, x, Kind::CaaOrAlias) {
        Some(r) => (r.0 % 65536) as u16,
        None => END,
    }
}

// Writes down where record i leads, if it is an alias.
fn point(index: Index, i: usize, onward: &mut [u16])
    ensures { onward.new ≡ pointed index.entry.book.now index.entry.table.now index.entry.links.now index.entry.heads.now i onward.old }
{
    if !book_table::is_alias_at(index.table, i) {
        return;
    }
    let target = book_table::data_at(index.book, index.table, i);
    book_chains::put_number(onward, i, first_number(index, target));
}

// Writes down for each alias among the first n records where it leads. The caller lends a number for each record, `END` everywhere.
pub fn point_aliases(index: Index, n: usize, onward: &mut [u16])
    ensures { onward.new ≡ pointed_below index.entry.book.now index.entry.table.now index.entry.links.now index.entry.heads.now n onward.old }
{
    for i in 0..n {
        point(index, i, onward);
    }
}

// The first CAA record or alias of the name that alias i leads to, if there is one.
pub fn onward_at(links: &[u16], onward: &[u16], i: usize) -> Option<RecordNo>
    ensures { result ≡ onward_at links.now onward.now i }
{
    let k = usize::from(*onward.get(i)?);
    if links.len() <= k {
        return None;
    }
    Some(RecordNo(k))
}

// Follows aliases from a record on, at most 8 of them. If one more would have to be followed, the answer is the first alias.
pub fn follow(table: &[u16], links: &[u16], onward: &[u16], first: RecordNo) -> Option<RecordNo>
    ensures { result ≡ resolved_from table.now links.now onward.now first }
{
    let mut r = first.0;
    let mut left = MAX_ALIASES;
    while book_table::is_alias_at(table, r) {
        if left == 0 {
            return Some(first);
        }
        let next = onward_at(links, onward, r)?;
        r = next.0;
        left -= 1;
    }
    Some(RecordNo(r))
}

// Looks up a name: the first CAA record of the name at which its aliases end; or its first alias, if they are too many.
pub fn look_up(index: Index, onward: &[u16], x: &[u8]) -> Option<RecordNo>
    ensures { result ≡ looked_up_at index.entry.book.now index.entry.table.now index.entry.links.now index.entry.heads.now onward.now x.now }
{
    let r = book_look::first_owned(index, x, Kind::CaaOrAlias)?;
    follow(index.table, index.links, onward, r)
}
