// May this issuer issue for every name of the request, for this account and by this method? This is the call that judges.
#![tactic(auto)]

ghost use Rattle.std.specs.Prelude.{◌≡◌, ◌*◌, ◌<◌};
ghost use Rattle.spec_rule.specs.Calls.{first_refusal, judge_checks, judge};
ghost use Rattle.judge_set.specs.BySet.{verdict_by_set};
ghost use Rattle.judge_call.specs.Asked.{Ready, Asked, Lent, HeadsLent};
ghost use Rattle.book_places.specs.Table.{room_for};
ghost use Rattle.spec_applicant.specs.Applicants.{texts};

use book_places::{END, FEW_RECORDS, Index, SHORT_BOOK, SHORT_TABLE, TABLE};
use spec_applicant::Applicant;
use spec_limits::MAX_RECORDS;
use spec_refusal::{NameNo, RecordNo, Refusal};
use spec_rule::{Judgement, LabelsOff};

// Two notes for each record: the set that begins with this record permits the issuer for X; and it does so for *.X.
const NOTES: usize = 2 * MAX_RECORDS;

const SHORT_NOTES: usize = 2 * FEW_RECORDS;

// Judges one name by its relevant set, and notes if the set permits the issuer. Where that is noted already, the set is not asked again.
fn judge_once(
    issuer: &[u8],
    applicant: Applicant,
    index: Index,
    name: NameNo,
    set: RecordNo,
    up: LabelsOff,
    wildcard: bool,
    asked: &mut [bool],
) -> Judgement
    requires { Asked (texts applicant) issuer.now index.book.now index.table.now index.links.now asked.old × (set.0 < room_for index.book.now) }
    ensures answer { result ≡ verdict_by_set (texts applicant.entry) issuer.now index.entry.book.now index.entry.table.now index.entry.links.now name.0 set up.0 wildcard }
    ensures notes { Asked (texts applicant.entry) issuer.now index.entry.book.now index.entry.table.now index.entry.links.now asked.new }
{
    let question = book_authorization::question_number(set, wildcard);
    if asked[question] {
        return Judgement::Permitted;
    }
    let judgement = judge_set::judge_by_set(issuer, applicant, index, name, set, up, wildcard);
    let Judgement::Permitted = judgement else {
        return judgement;
    };
    asked[question] = true;
    judgement
}

// Judges the names one after the other. A set is asked at most once for X and at most once for *.X.
fn judge_names(
    request: &[u8],
    issuer: &[u8],
    applicant: Applicant,
    index: Index,
    onward: &[u16],
    asked: &mut [bool],
) -> Judgement
    requires { Ready (texts applicant) request.now issuer.now index.book.now index.table.now index.links.now index.heads.now onward.now × Asked (texts applicant) issuer.now index.book.now index.table.now index.links.now asked.old }
    ensures { result ≡ judge request.now issuer.now (texts applicant.entry) index.entry.book.now }
{
    let mut at: usize = 0;
    let mut k: usize = 0;
    while at < request.len() {
        // An accepted request doesn't get here: its names are all good. A bad name would be refused.
        let Some(n) = read_request::requested_name(request, at) else {
            return Judgement::Refused(Refusal::BadName(NameNo(k)));
        };
        let name = NameNo(k);
        let nearest = book_climb::nearest(index, onward, &request[n.base..n.next]);
        at = n.next;
        k += 1;
        let Some(set) = nearest.found else {
            continue;
        };
        let judgement = judge_once(
            issuer,
            applicant,
            index,
            name,
            set,
            LabelsOff(nearest.up),
            n.wildcard,
            asked,
        );
        let Judgement::Permitted = judgement else {
            return judgement;
        };
    }
    Judgement::Permitted
}

// Judges accepted inputs. It reads the book once, and makes a table of its records, chains through them and the column of aliases in the lent
// arrays.
fn judge_in(
    request: &[u8],
    issuer: &[u8],
    applicant: Applicant,
    book: &[u8],
    table: &mut [u16],
    links: &mut [u16],
    heads: &mut [u16],
    onward: &mut [u16],
    asked: &mut [bool],
) -> Judgement
    requires { Lent (texts applicant) request.now issuer.now book.now table.old links.old heads.old onward.old asked.old }
    ensures { result ≡ judge request.now issuer.now (texts applicant.entry) book.now }
{
    book_index::index_book(book, table, links, heads, onward);
    let index = Index {
        book,
        table,
        links,
        heads,
    };
    judge_names(request, issuer, applicant, index, onward, asked)
}

// Judges with arrays for so many records. A table has six numbers for each record, and there are two questions for each.
fn judge_with<const RECORDS: usize, const CELLS: usize, const QUESTIONS: usize>(
    request: &[u8],
    issuer: &[u8],
    applicant: Applicant,
    book: &[u8],
    heads: &mut [u16],
) -> Judgement
    requires lent { HeadsLent (texts applicant) request.now issuer.now book.now heads.old }
    requires sizes { (RECORDS ≡ room_for book.now) × (CELLS ≡ 6 * RECORDS) × (QUESTIONS ≡ 2 * RECORDS) }
    ensures { result ≡ judge request.now issuer.now (texts applicant.entry) book.now }
{
    let mut table = [0u16; CELLS];
    let mut links = [END; RECORDS];
    let mut onward = [END; RECORDS];
    let mut asked = [false; QUESTIONS];
    judge_in(
        request,
        issuer,
        applicant,
        book,
        &mut table,
        &mut links,
        heads,
        &mut onward,
        &mut asked,
    )
}

// Judges accepted inputs.
fn judge_accepted(request: &[u8], issuer: &[u8], applicant: Applicant, book: &[u8]) -> Judgement
    requires { first_refusal (judge_checks request.now issuer.now (texts applicant) book.now) ≡ None }
    ensures { result ≡ judge request.now issuer.now (texts applicant.entry) book.now }
{
    let mut heads = [END; MAX_RECORDS];
    if book.len() <= SHORT_BOOK {
        // Small arrays have room for the few records of a short book, and are cleared faster.
        return judge_with::<FEW_RECORDS, SHORT_TABLE, SHORT_NOTES>(
            request, issuer, applicant, book, &mut heads,
        );
    }
    judge_with::<MAX_RECORDS, TABLE, NOTES>(request, issuer, applicant, book, &mut heads)
}

// Checks the inputs in the order of the table of refusals, then judges.
pub fn judge(request: &[u8], issuer: &[u8], applicant: Applicant, book: &[u8]) -> Judgement
    ensures { result ≡ judge request.now issuer.now (texts applicant.entry) book.now }
{
    if let Err(r) = read_inputs::check_inputs(request, issuer, applicant, book) {
        return Judgement::Refused(r);
    }
    judge_accepted(request, issuer, applicant, book)
}
