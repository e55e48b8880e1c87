// The calls on a session, which the caller keeps and lends for each call. Each returns a word like the other calls; 40 asks for a name: its length in a, and in b its offset in the kept name.
ghost use Rattle.std.specs.Prelude.{◌≡◌};
ghost use Rattle.spec_session_words.specs.SessionWords.{caa_session_open, caa_session_answer, caa_session_fail, caa_session_state};

use session_words::LentSession;

// Opens a session with one requested name, for this issuer, account and method. Whatever the session held is written over. 40, or a refusal with its place in a, which leaves zeros.
#[unsafe(no_mangle)]
pub extern "C" fn caa_session_open(
    session: &mut LentSession,
    request: &[u8],
    issuer: &[u8],
    account: &[u8],
    method: &[u8],
) -> u64
    ensures answer { result ≡ (caa_session_open request.now issuer.now (record { account = account.now; method = method.now })).word }
    ensures kept { session.new.kept ≡ (caa_session_open request.now issuer.now (record { account = account.now; method = method.now })).session }
{
    splinepearl::sessions::caa_session_open(session, request, issuer, account, method)
}

// Takes a book as the answer for the name asked for. 40, a verdict (0, 20, 21 or 22), or a refusal with its place in a, which leaves the session as it was.
#[unsafe(no_mangle)]
pub extern "C" fn caa_session_answer(session: &mut LentSession, book: &[u8]) -> u64
    ensures answer { result ≡ (caa_session_answer session.old.kept book.now).word }
    ensures kept { session.new.kept ≡ (caa_session_answer session.old.kept book.now).session }
{
    splinepearl::sessions::caa_session_answer(session, book)
}

// The lookup of the name asked for failed. 23, or refusal 14, which leaves the session as it was.
#[unsafe(no_mangle)]
pub extern "C" fn caa_session_fail(session: &mut LentSession) -> u64
    ensures answer { result ≡ (caa_session_fail session.old.kept).word }
    ensures kept { session.new.kept ≡ (caa_session_fail session.old.kept).session }
{
    splinepearl::sessions::caa_session_fail(session)
}

// What the session asks for (40), its verdict (0, 20, 21, 22 or 23), or 41: it is ended and has none.
#[unsafe(no_mangle)]
pub extern "C" fn caa_session_state(session: &LentSession) -> u64
    ensures { result ≡ caa_session_state session.now.kept }
{
    splinepearl::sessions::caa_session_state(session)
}
