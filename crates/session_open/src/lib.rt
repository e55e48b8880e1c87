// Opening a session: the checks of its inputs, and the session that asks for X.
#![tactic(auto)]

ghost use Rattle.std.specs.Prelude.{◌≡◌};
ghost use Rattle.spec_refusal.specs.Checks.{checked};
ghost use Rattle.spec_rule.specs.Calls.{first_refusal};
ghost use Rattle.spec_session.specs.Steps.{one_name_refusal, open_checks, session_of, ended_session, opened};
ghost use Rattle.spec_applicant.specs.Applicants.{texts};

use session_kept::keep_text;
use spec_applicant::Applicant;
use spec_limits::MAX_REQUEST_OCTETS;
use spec_refusal::{NameNo, Refusal};
use spec_rule::Judgement;
use spec_session::{ASKING, Session, SessionAnswer, Stepped};

// Refusals 1 and 2 for a request of one name.
fn check_one_name(s: &[u8]) -> Result<(), Refusal>
    ensures { result ≡ checked (one_name_refusal s.now) }
{
    if MAX_REQUEST_OCTETS < s.len() {
        return Err(Refusal::RequestTooLong);
    }
    let n = read_request::requested_name(s, 0).ok_or(Refusal::BadName(NameNo(0)))?;
    if n.next < s.len() {
        return Err(Refusal::BadName(NameNo(1)));
    }
    Ok(())
}

// The inputs in the order of checks.
fn check_opening(request: &[u8], issuer: &[u8], applicant: Applicant) -> Result<(), Refusal>
    ensures { result ≡ checked (first_refusal (open_checks request.now issuer.now (texts applicant.entry))) }
{
    check_one_name(request)?;
    read_issuer::check_issuer(issuer)?;
    read_applicant::check_applicant(applicant)
}

// A session that asks for X.
fn new_session(request: &[u8], issuer: &[u8], applicant: Applicant) -> Session
    ensures { result ≡ session_of request.now issuer.now (texts applicant.entry) }
{
    Session {
        phase: ASKING,
        up: 0,
        verdict: 0,
        rr: 0,
        name: keep_text(request),
        issuer: keep_text(issuer),
        account: keep_text(applicant.account),
        method: keep_text(applicant.method),
    }
}

// The session of a refused opening: zeros.
fn ended_session() -> Session
    ensures { result ≡ ended_session }
{
    let text = keep_text(&[]);
    Session {
        phase: 0,
        up: 0,
        verdict: 0,
        rr: 0,
        name: text,
        issuer: text,
        account: text,
        method: text,
    }
}

// Opens a session with one requested name, an issuer domain name, an account and a method.
pub fn open(request: &[u8], issuer: &[u8], applicant: Applicant) -> Stepped
    ensures { result ≡ opened request.now issuer.now (texts applicant.entry) }
{
    match check_opening(request, issuer, applicant) {
        Ok(()) => session_step::go_to(new_session(request, issuer, applicant)),
        Err(r) => Stepped {
            answer: SessionAnswer::Judged(Judgement::Refused(r)),
            session: ended_session(),
        },
    }
}
