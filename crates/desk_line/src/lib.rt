// The line of the desk program, from the contents of its files.
#![tactic(auto)]

ghost use Rattle.spec_octets.specs.Buffer.{Put};
ghost use Rattle.spec_desk.specs.Lines.{desk_line};

use spec_applicant::Applicant;
use spec_desk::LINE_OCTETS;

// Writes the line at the start of the buffer. If there is no book (`found` is false), the line is `no book`.
pub fn put_desk_line(
    found: bool,
    request: &[u8],
    issuer: &[u8],
    account: &[u8],
    method: &[u8],
    book: &[u8],
    out: &mut [u8; LINE_OCTETS],
) -> usize
    ensures { Put (desk_line found request.now issuer.now (record { account = account.now; method = method.now }) book.now) out.old out.new result }
{
    if !found {
        return text_buffer::put_octets(b"no book\n", out);
    }
    desk_judgement::put_judgement(
        judge_call::judge(request, issuer, Applicant { account, method }, book),
        out,
    )
}
