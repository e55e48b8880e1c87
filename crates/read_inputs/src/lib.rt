// Checks the inputs of a call in their order. The first refusal is the answer.
#![tactic(auto)]

ghost use Rattle.std.specs.Prelude.{◌≡◌, [], ◌∷◌};
ghost use Rattle.spec_refusal.specs.Checks.{checked};
ghost use Rattle.spec_request.specs.Request.{request_refusal};
ghost use Rattle.spec_applicant.specs.Applicant.{applicant_refusal};
ghost use Rattle.spec_record.specs.Records.{book_refusal};
ghost use Rattle.spec_rule.specs.Calls.{first_refusal, judge_checks};
ghost use Rattle.spec_applicant.specs.Applicants.{texts};

use spec_applicant::Applicant;
use spec_refusal::Refusal;

// The applicant and the book: the last checks of both calls.
fn check_applicant_and_book(applicant: Applicant, book: &[u8]) -> Result<(), Refusal>
    ensures { result ≡ checked (first_refusal (applicant_refusal (texts applicant.entry) ∷ book_refusal book.now ∷ [])) }
{
    read_applicant::check_applicant(applicant)?;
    book_check::check_book(book)
}

// The inputs of the call that judges.
pub fn check_inputs(
    request: &[u8],
    issuer: &[u8],
    applicant: Applicant,
    book: &[u8],
) -> Result<(), Refusal>
    ensures { result ≡ checked (first_refusal (judge_checks request.now issuer.now (texts applicant.entry) book.now)) }
{
    read_request::check_request(request)?; // refusals 1, 2 and 3
    read_issuer::check_issuer(issuer)?; // refusal 4
    check_applicant_and_book(applicant, book)
}

// The inputs of the call that lists.
pub fn check_list_inputs(request: &[u8], applicant: Applicant, book: &[u8]) -> Result<(), Refusal>
    ensures { result ≡ checked (first_refusal (request_refusal request.now ∷ applicant_refusal (texts applicant.entry) ∷ book_refusal book.now ∷ [])) }
{
    read_request::check_request(request)?;
    check_applicant_and_book(applicant, book) // whether the buffer is long enough is checked later
}
