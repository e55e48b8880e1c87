// What CAA says about a requested name, given its relevant set: unrestricted, forbidden, or governed by certain records.
#![tactic(auto)]

ghost use Rattle.std.specs.Prelude.{◌≡◌};
ghost use Rattle.book_places.specs.NameAuthorizations.{question_number, by_issue, by_tags, set_authorization, answer_to};

use book_places::{Governing, Index, NameAuthorization};
use spec_record::PropertyTag;
use spec_refusal::RecordNo;

// The issue records of the set govern. Without any, the name is unrestricted.
fn by_issue(index: Index, set: RecordNo) -> NameAuthorization
    ensures { result ≡ by_issue index.entry.book.now index.entry.table.now index.entry.links.now set }
{
    let tag = PropertyTag::Issue;
    match book_set::first_with_tag(index, set.0, tag) {
        Some(first) => NameAuthorization::Governed(Governing { set, first, tag }),
        None => NameAuthorization::Unrestricted,
    }
}

// For X the issue records govern. For *.X the issuewild records govern if there are any, else the issue records.
fn by_tags(index: Index, set: RecordNo, wildcard: bool) -> NameAuthorization
    ensures { result ≡ by_tags index.entry.book.now index.entry.table.now index.entry.links.now wildcard set }
{
    if !wildcard {
        return by_issue(index, set);
    }
    let tag = PropertyTag::IssueWild;
    match book_set::first_with_tag(index, set.0, tag) {
        Some(first) => NameAuthorization::Governed(Governing { set, first, tag }),
        None => by_issue(index, set),
    }
}

// What a relevant set says about X (`wildcard` is false), or about *.X. A critical record with an unknown tag forbids, whatever else the set
// holds. An alias in place of a set means that there are too many aliases to follow.
pub fn set_authorization(index: Index, set: RecordNo, wildcard: bool) -> NameAuthorization
    ensures { result ≡ set_authorization index.entry.book.now index.entry.table.now index.entry.links.now wildcard set }
{
    if book_table::is_alias_at(index.table, set.0) {
        return NameAuthorization::Unresolved(set);
    }
    if let Some(r) = book_set::first_unknown_critical(index, set.0) {
        return NameAuthorization::Forbidden(r);
    }
    by_tags(index, set, wildcard)
}

// The number of a question, which is: what does this set say about X, or about *.X? The number is twice the number of the set's first record,
// and one more for *.X.
pub fn question_number(set: RecordNo, wildcard: bool) -> usize
    ensures { result ≡ question_number set wildcard }
{
    2 * (set.0 % 32768) + usize::from(wildcard)
}

// The answer to the question with this number.
pub fn answer_to(index: Index, question: usize) -> NameAuthorization
    ensures { result ≡ answer_to index.entry.book.now index.entry.table.now index.entry.links.now question }
{
    set_authorization(index, RecordNo(question / 2), question % 2 == 1)
}
