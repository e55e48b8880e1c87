// Finds who may issue for all names of a request, by the table of the book. The answer is the candidates, and the last round: the candidates
// in it are the list.
#![tactic(auto)]

ghost use Rattle.std.specs.Prelude.{◌≡◌};
ghost use Rattle.list_places.specs.PermittedBy.{permitted_in};
ghost use Rattle.spec_applicant.specs.Applicants.{texts};

use book_places::Index;
use list_places::Permitted;
use spec_applicant::Applicant;
use spec_limits::MAX_NAMES;

// The issuers for all names of a request, for the applicant, by a table of the book and its chains. The candidates and their rounds are written into two arrays
// of the caller.
pub fn find_permitted(
    request: &[u8],
    applicant: Applicant,
    index: Index,
    onward: &[u16],
    names: &mut [u16],
    rounds: &mut [u16],
) -> Option<Permitted>
    ensures answer { result ≡ (permitted_in (texts applicant.entry) request.now index.entry.book.now index.entry.table.now index.entry.links.now index.entry.heads.now onward.now names.old rounds.old).answer }
    ensures names { names.new ≡ (permitted_in (texts applicant.entry) request.now index.entry.book.now index.entry.table.now index.entry.links.now index.entry.heads.now onward.now names.old rounds.old).names }
    ensures rounds { rounds.new ≡ (permitted_in (texts applicant.entry) request.now index.entry.book.now index.entry.table.now index.entry.links.now index.entry.heads.now onward.now names.old rounds.old).rounds }
{
    let mut numbers = [0u16; MAX_NAMES];
    let Some(noted) = list_sets::note_questions(request, index, onward, &mut numbers) else {
        return Some(Permitted::NOBODY);
    };
    let n = list_sets::ask_once(&mut numbers[..noted]);
    list_kept::ask_sets(applicant, index, &numbers[..n], names, rounds)
}
