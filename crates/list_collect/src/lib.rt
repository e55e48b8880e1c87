// Goes through the issuers that the records of a tagged set grant to an applicant. Either they become the candidates, or they decide which of the present
// candidates stay.
#![tactic(auto)]

ghost use Rattle.std.specs.Prelude.{◌≡◌};
ghost use Rattle.list_places.specs.Candidates.{collected};
ghost use Rattle.list_places.specs.Rounds.{narrowed};
ghost use Rattle.spec_applicant.specs.Applicants.{texts};

use book_places::Index;
use list_places::TaggedSet;
use spec_applicant::Applicant;

// Makes the names that a tagged set grants the candidates: each once, in the order of the first records that grant them. Returns how many there
// are.
pub fn collect(applicant: Applicant, index: Index, by: TaggedSet, names: &mut [u16]) -> usize
    ensures answer { result ≡ (collected (texts applicant.entry) index.entry.book.now index.entry.table.now index.entry.links.now by names.old).count }
    ensures numbers { names.new ≡ (collected (texts applicant.entry) index.entry.book.now index.entry.table.now index.entry.links.now by names.old).names }
{
    let mut count: usize = 0;
    let mut at: usize = by.set;
    while let Some(g) = list_grants::next_grant(applicant, index, by, at) {
        at = book_chains::behind(index.links, g.rr);
        let x = book_table::octets_at(index.book, g.at as usize, g.octets as usize);
        if !list_candidate::is_candidate(index.book, names, count, x) {
            count = list_candidate::push_candidate(names, count, g);
        }
    }
    count
}

// Moves those candidates of round t that a tagged set grants on to the next round.
pub fn narrow(
    applicant: Applicant,
    index: Index,
    by: TaggedSet,
    names: &[u16],
    count: usize,
    rounds: &mut [u16],
    t: usize,
)
    ensures { rounds.new ≡ narrowed (texts applicant.entry) index.entry.book.now names.now index.entry.table.now index.entry.links.now by count t rounds.old }
{
    let mut at: usize = by.set;
    while let Some(g) = list_grants::next_grant(applicant, index, by, at) {
        at = book_chains::behind(index.links, g.rr);
        let x = book_table::octets_at(index.book, g.at as usize, g.octets as usize);
        list_rounds::mark(index.book, names, count, x, rounds, t);
    }
}
