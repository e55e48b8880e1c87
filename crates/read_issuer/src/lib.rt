// Checks issuer domain names given as text.
#![tactic(auto)]

ghost use Rattle.std.specs.Prelude.{◌≡◌};
ghost use Rattle.spec_refusal.specs.Checks.{checked};
ghost use Rattle.spec_issuer.specs.Issuer.{is_issuer, issuer_refusal};

use spec_limits::{MAX_ISSUER_OCTETS, MAX_LABEL_OCTETS};
use spec_refusal::Refusal;

// Labels joined by single dots, 1 to 253 octets.
#[tactic(auto, unfolding(spec_issuer::specs::Issuer::is_issuer, text_labels::specs::DottedLabels::are_labels, text_labels::specs::DottedLabels::is_label_within, spec_octets::specs::Label::is_host_label, spec_limits::specs::Limits::max_issuer_octets, spec_limits::specs::Limits::max_label_octets))]
pub fn is_issuer(d: &[u8]) -> bool
    ensures { result ≡ is_issuer d.now }
{
    !d.is_empty() && d.len() <= MAX_ISSUER_OCTETS && text_labels::are_labels(d, MAX_LABEL_OCTETS)
}

// Refusal 4.
#[tactic(auto, unfolding(spec_issuer::specs::Issuer::issuer_refusal))]
pub fn check_issuer(d: &[u8]) -> Result<(), Refusal>
    ensures { result ≡ checked (issuer_refusal d.now) }
{
    if is_issuer(d) {
        Ok(())
    } else {
        Err(Refusal::BadIssuer)
    }
}
