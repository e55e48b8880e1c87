// An answer to a session: a book with the records of the name asked for.
#![tactic(auto)]

ghost use Rattle.std.specs.Prelude.{◌≡◌, true, drop};
ghost use Rattle.spec_name.specs.Names.{Name, wire};
ghost use Rattle.spec_request.specs.Request.{is_wildcard, base};
ghost use Rattle.spec_record.specs.Records.{records, book_refusal};
ghost use Rattle.spec_rule.specs.RelevantSet.{as_book, empty};
ghost use Rattle.spec_session.specs.Sessions.{held, kept_name, kept_applicant, is_kept, is_asking};
ghost use Rattle.spec_session.specs.Steps.{one_up, closed_by, by_lookup, by_records, answered};
ghost use Rattle.session_kept.specs.Places.{kept_at};
ghost use Rattle.session_look.specs.Looks.{looked_at};

use session_kept::{Place, held_part};
use spec_applicant::Applicant;
use spec_refusal::Refusal;
use spec_rule::{Judgement, LabelsOff};
use spec_session::{Session, SessionAnswer, Stepped};

// Takes one more label off.
fn one_up(session: Session) -> Session
    requires { is_kept session ≡ true }
    ensures { result ≡ one_up session }
{
    Session {
        up: session.up + 1,
        ..session
    }
}

// Nothing is found at the name asked for: its parent is asked for next, if that is not the root. Else the issuer is permitted.
fn go_up(session: Session) -> Session
    requires { is_kept session ≡ true }
    ensures { (n : Name) → kept_name session ≡ Some n → result ≡ by_lookup session n empty }
{
    let next = one_up(session);
    match session_check::kept(next) {
        Some(_) => next,
        None => session_step::close_session(session, 0, 0),
    }
}

// Ends a session with a verdict.
fn close_by(session: Session, judgement: Judgement) -> Session
    ensures { result ≡ closed_by judgement session }
{
    match judgement {
        Judgement::Permitted => session_step::close_session(session, 0, 0),
        Judgement::UnknownCritical(d) => session_step::close_session(session, 20, d.rr.0),
        Judgement::NotGranted(d) => session_step::close_session(session, 21, d.rr.0),
        Judgement::TooManyAliases(d) => session_step::close_session(session, 22, d.rr.0),
        // No lookup is refused. The number of a refusal is no verdict.
        Judgement::Refused(r) => {
            let number = spec_refusal::number_of(r) as usize;
            session_step::close_session(session, number, 0)
        }
    }
}

// Looks up the name asked for, which is at this place of the kept name.
fn look_at(session: Session, p: Place, book: &[u8]) -> Option<Judgement>
    requires { kept_at session ≡ Some p }
    ensures { (n : Name) → kept_name session ≡ Some n → result ≡ looked_at (kept_applicant session) (held session.issuer) book.now session.up (is_wildcard n) (wire (drop session.up (base n))) }
{
    let applicant = Applicant {
        account: held_part(&session.account),
        method: held_part(&session.method),
    };
    session_look::look(
        held_part(&session.issuer),
        applicant,
        book,
        &held_part(&session.name)[p.offset..],
        LabelsOff(session.up),
        p.wildcard,
    )
}

// The session after an accepted book.
fn by_book(session: Session, book: &[u8]) -> Session
    requires { (is_asking session ≡ true) × (book_refusal book.now ≡ None) }
    ensures { result ≡ by_records session (kept_name session) (as_book (records book.now)) }
{
    // A session that takes answers doesn't get here: its name is kept.
    let Some(p) = session_check::kept(session) else {
        return session;
    };
    match look_at(session, p, book) {
        None => go_up(session),
        Some(j) => close_by(session, j),
    }
}

// A book comes as the answer to the name asked for.
pub fn answer(session: Session, book: &[u8]) -> Stepped
    ensures { result ≡ answered session book.now }
{
    if !session_step::is_asking(session) {
        let answer = SessionAnswer::Judged(Judgement::Refused(Refusal::SessionEnded));
        return Stepped { answer, session };
    }
    if let Err(r) = book_check::check_book(book) {
        let answer = SessionAnswer::Judged(Judgement::Refused(r));
        return Stepped { answer, session };
    }
    session_step::go_to(by_book(session, book))
}
