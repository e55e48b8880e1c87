// The climb of RFC 8659, section 3: from a name upward, it finds the nearest name whose lookup finds CAA records. It gives the first of these
// records, and how many labels were taken off.
#![tactic(auto)]

ghost use Rattle.std.specs.Prelude.{◌≡◌};
ghost use Rattle.book_places.specs.Sets.{nearest_record, labels_off_at};

use book_places::{Index, Nearest};
use read_name::Climb;
use spec_refusal::RecordNo;

// Looks up the name, then its parent, and so on. The root is not looked up.
pub fn nearest(index: Index, onward: &[u16], name: &[u8]) -> Nearest
    ensures { result ≡ record { found = nearest_record index.entry.book.now index.entry.table.now index.entry.links.now index.entry.heads.now onward.now name.now; up = labels_off_at index.entry.book.now index.entry.table.now index.entry.links.now index.entry.heads.now onward.now name.now } }
{
    let mut c = Climb { at: 0 };
    let mut off: usize = 0;
    loop {
        let at = c.at;
        let above = c.up(name);
        let parent = above.at;
        if parent == at {
            return Nearest {
                found: None,
                up: off,
            };
        }
        let x = &name[at..];
        if let Some(r) = book_onward::look_up(index, onward, x) {
            return Nearest {
                found: Some(r),
                up: off,
            };
        }
        c = above;
        off += 1;
    }
}

// The record alone.
pub fn nearest_record(index: Index, onward: &[u16], name: &[u8]) -> Option<RecordNo>
    ensures { result ≡ nearest_record index.entry.book.now index.entry.table.now index.entry.links.now index.entry.heads.now onward.now name.now }
{
    nearest(index, onward, name).found
}
