// Whether a kept session keeps the rules, and where its name asked for begins.
#![tactic(auto)]

ghost use Rattle.std.specs.Prelude.{◌≡◌};
ghost use Rattle.session_kept.specs.Places.{kept_at};

use session_kept::{Place, held_part};
use spec_applicant::Applicant;
use spec_session::Session;

// The name asked for, if the kept issuer, account, method and name keep the rules.
pub fn kept(session: Session) -> Option<Place>
    ensures { result ≡ kept_at session }
{
    let applicant = Applicant {
        account: held_part(&session.account),
        method: held_part(&session.method),
    };
    if !read_issuer::is_issuer(held_part(&session.issuer)) {
        return None;
    }
    read_applicant::check_applicant(applicant).ok()?;
    session_kept::name_above(held_part(&session.name), session.up)
}
