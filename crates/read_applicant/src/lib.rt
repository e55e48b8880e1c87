// Checks the account and the method that come with a request (RFC 8657).
#![tactic(auto)]

ghost use Rattle.std.specs.Prelude.{◌≡◌};
ghost use Rattle.spec_refusal.specs.Checks.{checked};
ghost use Rattle.spec_applicant.specs.Applicant.{is_account, is_method, applicant_refusal};
ghost use Rattle.spec_applicant.specs.Applicants.{texts};

use spec_applicant::Applicant;
use spec_limits::MAX_ACCOUNT_OCTETS;
use spec_refusal::Refusal;
use text_classes::Class;

// 1 to 255 octets that the value of a parameter may hold.
#[tactic(auto, unfolding(spec_applicant::specs::Applicant::is_account, spec_limits::specs::Limits::max_account_octets))]
fn is_account(t: &[u8]) -> bool
    ensures { result ≡ is_account t.now }
{
    !t.is_empty() && t.len() <= MAX_ACCOUNT_OCTETS && text_classes::all_of(t, Class::ParameterOctet)
}

// The same without a comma.
fn is_method(t: &[u8]) -> bool
    ensures { result ≡ is_method t.now }
{
    is_account(t) && !t.contains(&b',')
}

// Refusal 15.
#[tactic(auto, unfolding(spec_applicant::specs::Applicant::is_applicant, spec_applicant::specs::Applicant::applicant_refusal))]
pub fn check_applicant(applicant: Applicant) -> Result<(), Refusal>
    ensures { result ≡ checked (applicant_refusal (texts applicant.entry)) }
{
    if is_account(applicant.account) && is_method(applicant.method) {
        Ok(())
    } else {
        Err(Refusal::BadAccountOrMethod)
    }
}
