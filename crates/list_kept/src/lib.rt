// Asks the relevant sets, one after the other. The issuers that the first restricting set grants become the candidates. After each further
// restricting set, only those candidates stay that it grants too.
#![tactic(auto)]

ghost use Rattle.std.specs.Prelude.{◌≡◌};
ghost use Rattle.list_places.specs.PermittedBy.{governed_in, all_asked};
ghost use Rattle.spec_applicant.specs.Applicants.{texts};

use book_places::{Governing, Index, NameAuthorization};
use list_places::{Permitted, TaggedSet};
use spec_applicant::Applicant;

// Takes one more restricting set into account.
fn keep_granted(
    applicant: Applicant,
    index: Index,
    g: Governing,
    names: &mut [u16],
    rounds: &mut [u16],
    before: Option<Permitted>,
) -> Permitted
    ensures answer { Some result ≡ (governed_in (texts applicant.entry) index.entry.book.now index.entry.table.now index.entry.links.now g (record { answer = before; names = names.old; rounds = rounds.old })).answer }
    ensures names { names.new ≡ (governed_in (texts applicant.entry) index.entry.book.now index.entry.table.now index.entry.links.now g (record { answer = before; names = names.old; rounds = rounds.old })).names }
    ensures rounds { rounds.new ≡ (governed_in (texts applicant.entry) index.entry.book.now index.entry.table.now index.entry.links.now g (record { answer = before; names = names.old; rounds = rounds.old })).rounds }
{
    let by = TaggedSet {
        set: g.set.0,
        tag: g.tag,
    };
    match before {
        None => {
            let count = list_collect::collect(applicant, index, by, names);
            Permitted { count, round: 0 }
        }
        Some(p) => {
            list_collect::narrow(applicant, index, by, names, p.count, rounds, p.round);
            Permitted {
                round: (p.round % 65536 + 1) % 65536,
                ..p
            }
        }
    }
}

// Asks the questions of a list, which has their numbers. A set that does not restrict changes nothing. If a set forbids, nobody may issue. The
// candidates and their rounds are written into two arrays of the caller.
pub fn ask_sets(
    applicant: Applicant,
    index: Index,
    numbers: &[u16],
    names: &mut [u16],
    rounds: &mut [u16],
) -> Option<Permitted>
    ensures answer { result ≡ (all_asked (texts applicant.entry) index.entry.book.now index.entry.table.now index.entry.links.now numbers.now names.old rounds.old).answer }
    ensures names { names.new ≡ (all_asked (texts applicant.entry) index.entry.book.now index.entry.table.now index.entry.links.now numbers.now names.old rounds.old).names }
    ensures rounds { rounds.new ≡ (all_asked (texts applicant.entry) index.entry.book.now index.entry.table.now index.entry.links.now numbers.now names.old rounds.old).rounds }
{
    let mut permitted: Option<Permitted> = None;
    for number in numbers {
        match book_authorization::answer_to(index, *number as usize) {
            NameAuthorization::Unrestricted => {}
            NameAuthorization::Forbidden(_) | NameAuthorization::Unresolved(_) => {
                return Some(Permitted::NOBODY);
            }
            NameAuthorization::Governed(g) => {
                permitted = Some(keep_granted(applicant, index, g, names, rounds, permitted));
            }
        }
    }
    permitted
}
