// The signed body of a certificate (TBSCertificate, RFC 5280 section 4.1): the way to its key, one element after the other.
#![tactic(auto)]

ghost use Rattle.std.specs.Prelude.{◌≡◌, drop};
ghost use Rattle.spec_der.specs.Elements.{element, tagged};
ghost use Rattle.spec_der.specs.Certificate.{version};
ghost use Rattle.read_tbs.specs.Places.{past, start, are_elements, key_in_tbs};

// The offset after an element of any tag. A fault stays a fault.
pub fn past_element(s: &[u8], from: Option<usize>) -> Option<usize>
    ensures { result ≡ past element s.now from }
{
    let e = read_element::read_element(s, from?)?;
    Some(e.next)
}

// The offset after an element with this tag.
fn past_tagged(s: &[u8], at: usize, tag: u8) -> Option<usize>
    ensures { result ≡ past (tagged tag) s.now (Some at) }
{
    let t = read_element::read_tagged(s, at, tag)?;
    Some(t.next)
}

// The offset after the version, if there is one at the front.
fn past_version(s: &[u8]) -> usize
    ensures { past version s.now start ≡ Some result }
{
    match read_element::read_tagged(s, 0, 0xA0) {
        Some(v) => v.next,
        None => 0,
    }
}

// Whether the octets from offset `at` on are elements, one after the other.
fn are_elements(s: &[u8], at: usize) -> bool
    ensures { result ≡ are_elements (drop at s.now) }
{
    let mut p: usize = at;
    while p < s.len() {
        let Some(e) = read_element::read_element(s, p) else {
            return false;
        };
        p = e.next;
    }
    true
}

// The key from its first octet up to the one after its last.
#[derive(Clone, Copy)]
pub struct KeyAt {
    pub from: usize,
    pub to: usize,
}

// The key in the contents of a signed body.
pub fn key_in_tbs(s: &[u8]) -> Option<KeyAt>
    ensures { result ≡ key_in_tbs s.now }
{
    let serial = past_version(s);
    let signature = past_tagged(s, serial, 0x02)?;
    let issuer = past_tagged(s, signature, 0x30)?;
    let validity = past_tagged(s, issuer, 0x30)?;
    let subject = past_tagged(s, validity, 0x30)?;
    let from = past_tagged(s, subject, 0x30)?;
    let to = past_tagged(s, from, 0x30)?;
    if are_elements(s, to) {
        Some(KeyAt { from, to })
    } else {
        None
    }
}
