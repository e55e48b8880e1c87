// What a session says of itself: the name to be looked up next, the verdict that stands, or neither.
#![tactic(auto)]

ghost use Rattle.std.specs.Prelude.{◌≡◌};
ghost use Rattle.spec_session.specs.Sessions.{verdict_of, state};
ghost use Rattle.session_state.specs.Verdicts.{or_no_verdict};

use spec_limits::MAX_RECORDS;
use spec_refusal::{NameNo, RecordNo};
use spec_rule::{Denial, Judgement, LabelsOff};
use spec_session::{ASKING, DECIDED, Session, SessionAnswer};

// The verdict with this number, record and labels taken off.
fn kept_verdict(number: usize, rr: usize, up: usize) -> SessionAnswer
    ensures { result ≡ or_no_verdict (verdict_of number rr up) }
{
    let d = Denial {
        name: NameNo(0),
        rr: RecordNo(rr),
        up: LabelsOff(up),
    };
    match number {
        0 => SessionAnswer::Judged(Judgement::Permitted),
        23 => SessionAnswer::LookupFailed,
        // No accepted book has such a record.
        _ if MAX_RECORDS <= rr => SessionAnswer::NoVerdict,
        20 => SessionAnswer::Judged(Judgement::UnknownCritical(d)),
        21 => SessionAnswer::Judged(Judgement::NotGranted(d)),
        22 => SessionAnswer::Judged(Judgement::TooManyAliases(d)),
        _ => SessionAnswer::NoVerdict,
    }
}

// The state of a session.
pub fn state(session: Session) -> SessionAnswer
    ensures { result ≡ state session }
{
    let Some(p) = session_check::kept(session) else {
        return SessionAnswer::NoVerdict;
    };
    match session.phase {
        ASKING => SessionAnswer::Asks {
            offset: p.offset,
            length: p.length,
        },
        DECIDED => kept_verdict(session.verdict, session.rr, session.up),
        _ => SessionAnswer::NoVerdict,
    }
}
