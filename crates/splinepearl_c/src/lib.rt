// The calls of splinepearl as C functions, for C and Rust: each makes the call of its name, with the same clauses.
#![tactic(auto)]

mod sessions;

ghost use Rattle.std.specs.Prelude.{◌≡◌};
ghost use Rattle.spec_answers.specs.Door.{caa_judge_for, caa_permitted_issuers_for, caa_write_line, caa_read_line};

// May this issuer issue, for this account and by this method? 0: permitted. 20, 21 and 22: name number in a, record number in b, labels taken off in c. A refusal: its place (spec_refusal) in a.
#[unsafe(no_mangle)]
pub extern "C" fn caa_judge_for(
    request: &[u8],
    issuer: &[u8],
    account: &[u8],
    method: &[u8],
    book: &[u8],
) -> u64
    ensures { result ≡ caa_judge_for request.now issuer.now (record { account = account.now; method = method.now }) book.now }
{
    splinepearl::caa_judge_for(request, issuer, account, method, book)
}

// Who may issue, for this account and by this method? 30: anyone. 31: a list at the start of the buffer, with its octets in a and its count in b. A refusal: place in a.
#[unsafe(no_mangle)]
pub extern "C" fn caa_permitted_issuers_for(
    request: &[u8],
    account: &[u8],
    method: &[u8],
    book: &[u8],
    buffer: &mut [u8],
) -> u64
    ensures answer { result ≡ (caa_permitted_issuers_for request.now (record { account = account.now; method = method.now }) book.now buffer.old).word }
    ensures octets { buffer.new ≡ (caa_permitted_issuers_for request.now (record { account = account.now; method = method.now }) book.now buffer.old).buffer }
{
    splinepearl::caa_permitted_issuers_for(request, account, method, book, buffer)
}

// Writes the line of CAA data at the start of the buffer.
#[unsafe(no_mangle)]
pub extern "C" fn caa_write_line(d: &[u8], buffer: &mut [u8]) -> u64
    ensures answer { result ≡ (caa_write_line d.now buffer.old).word }
    ensures octets { buffer.new ≡ (caa_write_line d.now buffer.old).buffer }
{
    splinepearl::caa_write_line(d, buffer)
}

// Writes the CAA data of a line at the start of the buffer.
#[unsafe(no_mangle)]
pub extern "C" fn caa_read_line(line: &[u8], buffer: &mut [u8]) -> u64
    ensures answer { result ≡ (caa_read_line line.now buffer.old).word }
    ensures octets { buffer.new ≡ (caa_read_line line.now buffer.old).buffer }
{
    splinepearl::caa_read_line(line, buffer)
}
