// TLSA data (RFC 6698 section 2.1): its three fields, and the association data as a slice of it.
#![tactic(auto)]

ghost use Rattle.std.specs.Prelude.{◌≡◌};
ghost use Rattle.read_association.specs.Places.{association_at, association_part};

#[derive(Clone, Copy)]
pub struct AssociationAt {
    pub usage: u8,
    pub selector: u8,
    pub matching: u8,
}

pub fn read_association(d: &[u8]) -> Option<AssociationAt>
    ensures { result ≡ association_at d.now }
{
    match d {
        [usage, selector, matching, _, ..] => Some(AssociationAt {
            usage: *usage,
            selector: *selector,
            matching: *matching,
        }),
        _ => None,
    }
}

// The association data; empty if the data is malformed.
pub fn association_part(d: &[u8]) -> &[u8]
    ensures { result.now ≡ association_part d.now }
{
    if d.len() < 4 { &d[0..0] } else { &d[3..] }
}
