// The calls for C and Rust. Each returns a word of 64 bits: the number of the answer in bits 0 to 7, and the fields a, b and c above.
#![tactic(auto)]

pub mod sessions;

ghost use Rattle.std.specs.Prelude.{◌≡◌};
ghost use Rattle.spec_answers.specs.Door.{caa_judge_for, caa_permitted_issuers_for, caa_write_line, caa_read_line};
ghost use Rattle.spec_answers.specs.LineAnswers.{packed_line};

use judge_word::pack_judgement;
use spec_applicant::Applicant;
use spec_refusal::Refusal;
use spec_rule::PermittedIssuers;

// May this issuer issue, for this account and by this method? 0: permitted. 20, 21 and 22: name number in a, record number in b, labels taken off in c. A refusal: its place (spec_refusal) in a.
pub fn caa_judge_for(
    request: &[u8],
    issuer: &[u8],
    account: &[u8],
    method: &[u8],
    book: &[u8],
) -> u64
    ensures { result ≡ caa_judge_for request.now issuer.now (record { account = account.now; method = method.now }) book.now }
{
    let applicant = Applicant { account, method };
    pack_judgement(judge_call::judge(request, issuer, applicant, book))
}

// Who may issue, for this account and by this method? 30: anyone. 31: a list at the start of the buffer, with its octets in a and its count in b. A refusal: place in a.
#[tactic(auto, unfolding(spec_answers::specs::ListAnswers::packed_issuers, spec_rule::specs::Calls::permitted_issuers_code, spec_packed::specs::Packed::packed_refusal))]
pub fn caa_permitted_issuers_for(
    request: &[u8],
    account: &[u8],
    method: &[u8],
    book: &[u8],
    buffer: &mut [u8],
) -> u64
    ensures answer { result ≡ (caa_permitted_issuers_for request.now (record { account = account.now; method = method.now }) book.now buffer.old).word }
    ensures octets { buffer.new ≡ (caa_permitted_issuers_for request.now (record { account = account.now; method = method.now }) book.now buffer.old).buffer }
{
    let applicant = Applicant { account, method };
    match list_call::permitted_issuers(request, applicant, book, buffer) {
        PermittedIssuers::Anyone => spec_packed::pack(30, 0, 0, 0),
        PermittedIssuers::Listed { count, octets } => spec_packed::pack(
            31,
            octets as u64,
            count as u64,
            0,
        ),
        PermittedIssuers::Refused(r) => spec_packed::pack_refusal(r),
    }
}

// 0 with the length of the output in a, or a refusal with its place in a.
#[tactic(auto, unfolding(spec_answers::specs::LineAnswers::packed_line, spec_answers::specs::LineAnswers::line_code, spec_packed::specs::Packed::packed_refusal))]
fn pack_made(m: Result<usize, Refusal>) -> u64
    ensures { result ≡ packed_line m }
{
    match m {
        Ok(n) => spec_packed::pack(0, n as u64, 0, 0),
        Err(r) => spec_packed::pack_refusal(r),
    }
}

// Writes the line of CAA data at the start of the buffer.
pub fn caa_write_line(d: &[u8], buffer: &mut [u8]) -> u64
    ensures answer { result ≡ (caa_write_line d.now buffer.old).word }
    ensures octets { buffer.new ≡ (caa_write_line d.now buffer.old).buffer }
{
    pack_made(line_writer::write_line(d, buffer))
}

// Writes the CAA data of a line at the start of the buffer.
pub fn caa_read_line(line: &[u8], buffer: &mut [u8]) -> u64
    ensures answer { result ≡ (caa_read_line line.now buffer.old).word }
    ensures octets { buffer.new ≡ (caa_read_line line.now buffer.old).buffer }
{
    pack_made(line_reader::read_line(line, buffer))
}
