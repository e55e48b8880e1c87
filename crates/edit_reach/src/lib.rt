// Whether an owner touches a name: it is the name, or a name above it, or an alias leads to it from one of these.
#![tactic(auto)]

ghost use Rattle.std.specs.Prelude.{◌≡◌};
ghost use Rattle.edit_places.specs.Reach.{leads_to, touches_at, name_touched};

use book_places::{Index, Kind};
use read_name::Climb;
use spec_limits::MAX_ALIASES;
use spec_refusal::RecordNo;

// Whether one of the first 8 aliases leads to the owner, from a record on.
fn leads(index: Index, onward: &[u16], owner: &[u8], first: RecordNo) -> bool
    ensures { result ≡ leads_to index.entry.book.now index.entry.table.now index.entry.links.now onward.now owner.now first }
{
    let mut r = first.0;
    let mut left = MAX_ALIASES;
    while book_table::is_alias_at(index.table, r) {
        if left == 0 {
            return false;
        }
        if text_compare::same_ignoring_case(
            owner,
            book_table::data_at(index.book, index.table, r),
        ) {
            return true;
        }
        let Some(next) = book_onward::onward_at(index.links, onward, r) else {
            return false;
        };
        r = next.0;
        left -= 1;
    }
    false
}

// Whether the owner is x, or an alias leads to it from x.
fn touches(index: Index, onward: &[u16], owner: &[u8], x: &[u8]) -> bool
    ensures { result ≡ touches_at index.entry.book.now index.entry.table.now index.entry.links.now onward.now owner.now index.entry.heads.now x.now }
{
    if text_compare::same_ignoring_case(owner, x) {
        return true;
    }
    let Some(r) = book_look::first_owned(index, x, Kind::CaaOrAlias) else {
        return false;
    };
    leads(index, onward, owner, r)
}

// Asks this of the name, of its parent, and so on. The root is not asked about.
pub fn name_touched(index: Index, onward: &[u16], owner: &[u8], name: &[u8]) -> bool
    ensures { result ≡ name_touched index.entry.book.now index.entry.table.now index.entry.links.now onward.now owner.now index.entry.heads.now name.now }
{
    let mut c = Climb { at: 0 };
    loop {
        let at = c.at;
        let above = c.up(name);
        let parent = above.at;
        if parent == at {
            return false;
        }
        if touches(index, onward, owner, &name[at..]) {
            return true;
        }
        c = above;
    }
}
