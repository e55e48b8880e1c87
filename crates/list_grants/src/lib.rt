// The grants of the records of a set with one tag. The set is named by its first record; its chain leads to the others.
#![tactic(auto)]

ghost use Rattle.std.specs.Prelude.{◌≡◌, ◌≤◌};
ghost use Rattle.list_places.specs.Grants.{grant_in, grants_from, first_grant};
ghost use Rattle.spec_applicant.specs.Applicants.{texts};

use book_places::Index;
use list_places::{Grant, TaggedSet};
use read_value::NameAt;
use spec_applicant::Applicant;

// The grant of a record. Its data begins at `offset` in the book, and holds the issuer name n. In a book within the limit, all these numbers fit
// 16 bits.
fn grant_in(rr: usize, offset: usize, n: NameAt) -> Grant
    requires { n.from ≤ n.to }
    ensures { result ≡ grant_in rr offset n }
{
    Grant {
        rr,
        at: ((offset % 65536 + n.from % 65536) % 65536) as u16,
        octets: ((n.to - n.from) % 65536) as u16,
    }
}

// The first grant of a tagged set to the applicant, from a record of its chain on.
pub fn next_grant(applicant: Applicant, index: Index, by: TaggedSet, from: usize) -> Option<Grant>
    ensures { result ≡ first_grant (grants_from (texts applicant.entry) index.entry.book.now index.entry.table.now index.entry.links.now by from) }
{
    let mut at: usize = from;
    loop {
        let r = book_look::next_in_set(index, by.set, at)?;
        let i = r.0;
        at = book_chains::behind(index.links, i);
        let d = book_table::data_at(index.book, index.table, i);
        if !book_tests::has_tag(d, by.tag) {
            continue;
        }
        if let Some(n) = read_grantee::read_grantee(d, applicant) {
            return Some(grant_in(i, book_table::data_offset(index.table, i), n));
        }
    }
}
