// The public key of a certificate (RFC 5280 section 4.1): where it is, as a part of the octets, and whether the octets are a certificate.
#![tactic(auto)]

ghost use Rattle.std.specs.Prelude.{◌≡◌, drop};
ghost use Rattle.spec_der.specs.Key.{is_certificate, key_part};
ghost use Rattle.find_key.specs.Places.{two_elements, key_at};

use read_tbs::KeyAt;
use spec_der::MAX_CERTIFICATE_OCTETS;

// Whether the octets from offset `at` on are two elements.
fn are_two_elements(s: &[u8], at: usize) -> bool
    ensures { result ≡ two_elements (drop at s.now) }
{
    let second = read_tbs::past_element(s, Some(at));
    read_tbs::past_element(s, second) == Some(s.len())
}

// The offsets of the key, or a fault if s isn't laid out as a certificate.
pub fn find_key(s: &[u8]) -> Option<KeyAt>
    ensures { result ≡ key_at s.now }
{
    if MAX_CERTIFICATE_OCTETS < s.len() {
        return None;
    }
    let whole = read_element::read_tagged(s, 0, 0x30)?;
    if whole.next != s.len() {
        return None;
    }
    let body = read_element::read_tagged(s, whole.contents, 0x30)?;
    let at = body.contents;
    let end = body.next;
    if !are_two_elements(s, end) {
        return None;
    }
    let key = read_tbs::key_in_tbs(&s[at..end])?;
    let from = at + key.from;
    let to = at + key.to;
    Some(KeyAt { from, to })
}

// The key with its tag and length octets, as a slice of s; empty if s isn't laid out as a certificate.
pub fn key_part(s: &[u8]) -> &[u8]
    ensures { result.now ≡ key_part s.now }
{
    match find_key(s) {
        Some(KeyAt { from, to }) => &s[from..to],
        None => &s[0..0],
    }
}

// Whether s is laid out as a certificate.
pub fn is_certificate(s: &[u8]) -> bool
    ensures { result ≡ is_certificate s.now }
{
    find_key(s).is_some()
}
