// Texts of octets: the comparison octet for octet, for texts in which letter case matters.
#![tactic(auto)]

ghost use Rattle.std.specs.Prelude.{◌≡◌};
ghost use Rattle.spec_octets.specs.Octets.{same};

// Whether two texts are equal: the lengths first, then the octets.
pub fn is_same(a: &[u8], b: &[u8]) -> bool
    ensures { result ≡ same a.now b.now }
{
    a == b
}
