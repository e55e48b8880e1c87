// Judges one name by its relevant set. The call that judges and the sessions share this.
#![tactic(auto)]

ghost use Rattle.std.specs.Prelude.{◌≡◌};
ghost use Rattle.judge_set.specs.BySet.{verdict_by_set};
ghost use Rattle.spec_applicant.specs.Applicants.{texts};

use book_places::{Index, NameAuthorization};
use spec_applicant::Applicant;
use spec_refusal::{NameNo, RecordNo};
use spec_rule::{Denial, Judgement, LabelsOff};

// Judges one name, given its relevant set and how many labels were taken off to reach it. These are four parameters and no struct: they come from
// four places, and no other function takes all of them apart.
pub fn judge_by_set(
    issuer: &[u8],
    applicant: Applicant,
    index: Index,
    name: NameNo,
    set: RecordNo,
    up: LabelsOff,
    wildcard: bool,
) -> Judgement
    ensures { result ≡ verdict_by_set (texts applicant.entry) issuer.now index.entry.book.now index.entry.table.now index.entry.links.now name.0 set up.0 wildcard }
{
    match book_authorization::set_authorization(index, set, wildcard) {
        NameAuthorization::Unrestricted => Judgement::Permitted,
        NameAuthorization::Forbidden(rr) => Judgement::UnknownCritical(Denial { name, rr, up }),
        NameAuthorization::Unresolved(rr) => Judgement::TooManyAliases(Denial { name, rr, up }),
        NameAuthorization::Governed(g) => {
            if book_set::any_grants(index, g.set.0, g.tag, issuer, applicant) {
                Judgement::Permitted
            } else {
                Judgement::NotGranted(Denial {
                    name,
                    rr: g.first,
                    up,
                })
            }
        }
    }
}
