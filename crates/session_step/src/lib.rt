// Steps of a session, by value: where it goes, how it ends, and a lookup that failed.
#![tactic(auto)]

ghost use Rattle.std.specs.Prelude.{◌≡◌};
ghost use Rattle.spec_session.specs.Sessions.{is_asking};
ghost use Rattle.spec_session.specs.Steps.{goes_to, closed_with, failed};

use spec_refusal::Refusal;
use spec_rule::Judgement;
use spec_session::{ASKING, DECIDED, Session, SessionAnswer, Stepped};

// Whether a session takes an answer.
pub fn is_asking(session: Session) -> bool
    ensures { result ≡ is_asking session }
{
    session.phase == ASKING && session_check::kept(session).is_some()
}

// What is accepted is answered by the state of the session after it.
pub fn go_to(session: Session) -> Stepped
    ensures { result ≡ goes_to session }
{
    Stepped {
        answer: session_state::state(session),
        session,
    }
}

// Ends a session with this verdict and this record.
pub fn close_session(session: Session, verdict: usize, rr: usize) -> Session
    ensures { result ≡ closed_with verdict rr session }
{
    Session {
        phase: DECIDED,
        verdict,
        rr,
        ..session
    }
}

// The lookup of the name asked for failed.
pub fn fail(session: Session) -> Stepped
    ensures { result ≡ failed session }
{
    if !is_asking(session) {
        return Stepped {
            answer: SessionAnswer::Judged(Judgement::Refused(Refusal::SessionEnded)),
            session,
        };
    }
    go_to(close_session(session, 23, 0))
}
