// Whether TLSA data is usable, and whether it matches a certificate or its key (RFC 6698 section 2.1).
#![tactic(auto)]

ghost use Rattle.std.specs.Prelude.{◌≡◌};
ghost use Rattle.tlsa_record.specs.Places.{is_usable_data, is_match_data, presented};

use tlsa_fields::{MatchingType, Selector, Usage};

// Whether usage, selector and matching type are known.
pub fn is_usable(d: &[u8]) -> bool
    ensures { result ≡ is_usable_data d.now }
{
    match read_association::read_association(d) {
        Some(a) => {
            Usage::from_octet(a.usage).is_some()
                && Selector::from_octet(a.selector).is_some()
                && MatchingType::from_octet(a.matching).is_some()
        }
        None => false,
    }
}

// Whether the data is usable, of this usage, and equal to the certificate or to the key, as its selector says.
pub fn is_match(d: &[u8], usage: u8, certificate: &[u8], key: &[u8]) -> bool
    ensures { result ≡ is_match_data (presented usage certificate.now key.now) d.now }
{
    match read_association::read_association(d) {
        Some(a) if is_usable(d) && a.usage == usage => {
            let part = read_association::association_part(d);
            let selected = if a.selector == Selector::FULL_CERTIFICATE.0 {
                certificate
            } else {
                key
            };
            text_equal::is_same(part, selected)
        }
        _ => false,
    }
}
