// The answer of a session as the word that a call returns.
#![tactic(auto)]

ghost use Rattle.std.specs.Prelude.{◌≡◌};
ghost use Rattle.spec_session_words.specs.SessionWords.{packed_session};

use spec_session::SessionAnswer;

// 40: a name to be looked up, its length in a, and in b its offset in the kept name. 23: a lookup failed. 41: ended without a verdict.
#[tactic(auto, unfolding(spec_session_words::specs::SessionWords::packed_session, spec_session::specs::Steps::session_code, spec_answers::specs::Answers::packed_judgement))]
pub fn pack_session(a: SessionAnswer) -> u64
    ensures { result ≡ packed_session a }
{
    match a {
        SessionAnswer::Asks { offset, length } => spec_packed::pack(
            40,
            length as u64,
            offset as u64,
            0,
        ),
        SessionAnswer::Judged(j) => judge_word::pack_judgement(j),
        SessionAnswer::LookupFailed => spec_packed::pack(23, 0, 0, 0),
        SessionAnswer::NoVerdict => spec_packed::pack(41, 0, 0, 0),
    }
}
