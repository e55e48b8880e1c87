// Searches in a set of CAA records with one owner. A set is named by its first record; its chain leads to the others.
#![tactic(auto)]

ghost use Rattle.std.specs.Prelude.{◌≡◌};
ghost use Rattle.book_places.specs.Sets.{first_unknown_critical, first_tagged, set_grants};
ghost use Rattle.spec_applicant.specs.Applicants.{texts};

use book_places::Index;
use spec_applicant::Applicant;
use spec_record::PropertyTag;
use spec_refusal::RecordNo;

// The first record of a set that is critical and has an unknown tag, if there is one.
pub fn first_unknown_critical(index: Index, first: usize) -> Option<RecordNo>
    ensures { result ≡ first_unknown_critical index.entry.book.now index.entry.table.now index.entry.links.now first }
{
    let mut at = first;
    let found = loop {
        let r = book_look::next_in_set(index, first, at)?;
        at = book_chains::behind(index.links, r.0);
        if book_tests::is_unknown_critical(book_table::data_at(index.book, index.table, r.0)) {
            break r;
        }
    };
    Some(found)
}

// The first record of a set with this tag, if there is one.
pub fn first_with_tag(index: Index, first: usize, tag: PropertyTag) -> Option<RecordNo>
    ensures { result ≡ first_tagged tag index.entry.book.now index.entry.table.now index.entry.links.now first }
{
    let mut at = first;
    loop {
        let r = book_look::next_in_set(index, first, at)?;
        at = book_chains::behind(index.links, r.0);
        if book_tests::has_tag(book_table::data_at(index.book, index.table, r.0), tag) {
            return Some(r);
        }
    }
}

// Whether any record of a set with this tag grants the issuer to the applicant.
pub fn any_grants(
    index: Index,
    first: usize,
    tag: PropertyTag,
    issuer: &[u8],
    applicant: Applicant,
) -> bool
    ensures { result ≡ set_grants (texts applicant.entry) tag issuer.now index.entry.book.now index.entry.table.now index.entry.links.now first }
{
    let mut from = first;
    while let Some(r) = book_look::next_in_set(index, first, from) {
        from = book_chains::behind(index.links, r.0);
        let d = book_table::data_at(index.book, index.table, r.0);
        if book_tests::has_tag(d, tag) {
            if book_tests::grants(d, issuer, applicant) {
                return true;
            }
        }
    }
    false
}
