// Who may issue for every name of the request, for this account and by this method? This is the call that lists the permitted issuers.
#![tactic(auto)]

ghost use Rattle.std.specs.Prelude.{◌≡◌, ◌*◌};
ghost use Rattle.spec_rule.specs.Calls.{list_issuers};
ghost use Rattle.book_places.specs.Table.{room_for};
ghost use Rattle.list_call.specs.Lent.{Lent, HeadsLent, ListPut};
ghost use Rattle.spec_applicant.specs.Applicants.{texts};

use book_places::{END, FEW_RECORDS, Index, SHORT_BOOK, SHORT_TABLE, TABLE};
use list_places::Permitted;
use spec_applicant::Applicant;
use spec_limits::MAX_RECORDS;
use spec_refusal::Refusal;
use spec_rule::PermittedIssuers;

// Two numbers for each candidate. There are at most as many candidates as records.
const NAMES: usize = 2 * MAX_RECORDS;

const SHORT_NAMES: usize = 2 * FEW_RECORDS;

// Writes the list to the start of the buffer; the rest of the buffer stays as it is. Nothing is written unless the whole list fits.
fn put_list(
    book: &[u8],
    names: &[u16],
    rounds: &[u16],
    found: Option<Permitted>,
    buffer: &mut [u8],
) -> PermittedIssuers
    ensures { ListPut book.now names.now rounds.now found buffer.old result buffer.new }
{
    let Some(found) = found else {
        return PermittedIssuers::Anyone;
    };
    let size = list_entry::put_entries(book, names, found.count, rounds, found.round, buffer);
    if buffer.len() < size.octets {
        return PermittedIssuers::Refused(Refusal::NoRoom(size.octets));
    }
    PermittedIssuers::Listed {
        count: size.count,
        octets: size.octets,
    }
}

// Lists for accepted inputs. It reads the book once, and makes a table of its records and chains through them in the lent arrays.
fn list_in(
    request: &[u8],
    applicant: Applicant,
    book: &[u8],
    table: &mut [u16],
    links: &mut [u16],
    heads: &mut [u16],
    onward: &mut [u16],
    names: &mut [u16],
    rounds: &mut [u16],
    buffer: &mut [u8],
) -> PermittedIssuers
    requires { Lent (texts applicant) request.now book.now table.old links.old heads.old onward.old names.old rounds.old }
    ensures answer { result ≡ (list_issuers request.now (texts applicant.entry) book.now buffer.old).answer }
    ensures octets { buffer.new ≡ (list_issuers request.now (texts applicant.entry) book.now buffer.old).buffer }
{
    book_index::index_book(book, table, links, heads, onward);
    let index = Index {
        book,
        table,
        links,
        heads,
    };
    let found = list_find::find_permitted(request, applicant, index, onward, names, rounds);
    put_list(book, names, rounds, found, buffer)
}

// Lists with arrays for so many records. A table has six numbers for each record, and there are two for each candidate.
fn list_with<const RECORDS: usize, const CELLS: usize, const NUMBERS: usize>(
    request: &[u8],
    applicant: Applicant,
    book: &[u8],
    heads: &mut [u16],
    buffer: &mut [u8],
) -> PermittedIssuers
    requires lent { HeadsLent (texts applicant) request.now book.now heads.old }
    requires sizes { (RECORDS ≡ room_for book.now) × (CELLS ≡ 6 * RECORDS) × (NUMBERS ≡ 2 * RECORDS) }
    ensures answer { result ≡ (list_issuers request.now (texts applicant.entry) book.now buffer.old).answer }
    ensures octets { buffer.new ≡ (list_issuers request.now (texts applicant.entry) book.now buffer.old).buffer }
{
    let mut table = [0u16; CELLS];
    let mut links = [END; RECORDS];
    let mut onward = [END; RECORDS];
    let mut names = [0u16; NUMBERS];
    let mut rounds = [0u16; RECORDS];
    list_in(
        request,
        applicant,
        book,
        &mut table,
        &mut links,
        heads,
        &mut onward,
        &mut names,
        &mut rounds,
        buffer,
    )
}

// The list stands at the front of the buffer, and the rest stays.
pub fn permitted_issuers(
    request: &[u8],
    applicant: Applicant,
    book: &[u8],
    buffer: &mut [u8],
) -> PermittedIssuers
    ensures answer { result ≡ (list_issuers request.now (texts applicant.entry) book.now buffer.old).answer }
    ensures octets { buffer.new ≡ (list_issuers request.now (texts applicant.entry) book.now buffer.old).buffer }
{
    if let Err(r) = read_inputs::check_list_inputs(request, applicant, book) {
        return PermittedIssuers::Refused(r);
    }
    let mut heads = [END; MAX_RECORDS];
    if book.len() <= SHORT_BOOK {
        // Small arrays have room for the few records of a short book: less has to be cleared first.
        return list_with::<FEW_RECORDS, SHORT_TABLE, SHORT_NAMES>(
            request, applicant, book, &mut heads, buffer,
        );
    }
    list_with::<MAX_RECORDS, TABLE, NAMES>(request, applicant, book, &mut heads, buffer)
}
