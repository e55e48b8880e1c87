// The calls on a session, by value: the session after the call, and the word that the call returns.
#![tactic(auto)]

ghost use Rattle.std.specs.Prelude.{◌≡◌};
ghost use Rattle.spec_session_words.specs.SessionWords.{worded, caa_session_open, caa_session_answer, caa_session_fail, caa_session_state};
ghost use Rattle.session_words.specs.Called.{called};

use session_pack::pack_session;
use spec_applicant::Applicant;
use spec_session::{Session, Stepped};

// The session that a caller keeps in memory and lends for each call. It is the session of the definitions, and nothing more: the crate of a type alone can give it methods.
#[repr(C)]
#[derive(Clone, Copy)]
pub struct LentSession {
    pub kept: Session,
}

// The session after a call, and the word that the call returns.
#[derive(Clone, Copy)]
pub struct Called {
    pub session: LentSession,
    pub word: u64,
}

// The session after a step, with the word for its answer.
fn pack_step(t: Stepped) -> Called
    ensures { result ≡ called (worded t) }
{
    let answer = t.answer;
    let kept = t.session;
    let word = pack_session(answer);
    let session = LentSession { kept };
    Called { session, word }
}

impl LentSession {
    pub fn open(request: &[u8], issuer: &[u8], account: &[u8], method: &[u8]) -> Called
        ensures { result ≡ called (caa_session_open request.now issuer.now (record { account = account.entry.now; method = method.now })) }
    {
        let applicant = Applicant { account, method };
        pack_step(session_open::open(request, issuer, applicant))
    }

    pub fn answer(self, book: &[u8]) -> Called
        ensures { result ≡ called (caa_session_answer self.kept book.now) }
    {
        pack_step(session_answer::answer(self.kept, book))
    }

    pub fn fail(self) -> Called
        ensures { result ≡ called (caa_session_fail self.kept) }
    {
        pack_step(session_step::fail(self.kept))
    }

    pub fn state(self) -> u64
        ensures { result ≡ caa_session_state self.kept }
    {
        pack_session(session_state::state(self.kept))
    }
}
