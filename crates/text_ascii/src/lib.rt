// ASCII: the classes of an octet, and its lower case.
#![tactic(auto)]

ghost use Rattle.std.specs.Prelude.{◌≡◌};
ghost use Rattle.spec_octets.specs.Octets.{is_letter_or_digit, is_blank, is_digit, lower};
ghost use Rattle.spec_octets.specs.Label.{is_letter_digit_hyphen};

#[tactic(auto, unfolding(spec_octets::specs::Octets::is_digit))]
pub fn is_digit(b: u8) -> bool
    ensures { result ≡ is_digit b }
{
    b.is_ascii_digit()
}

#[tactic(auto, unfolding(spec_octets::specs::Octets::is_letter_or_digit, spec_octets::specs::Octets::is_upper, spec_octets::specs::Octets::is_lower, spec_octets::specs::Octets::is_digit))]
pub fn is_letter_or_digit(b: u8) -> bool
    ensures { result ≡ is_letter_or_digit b }
{
    b.is_ascii_alphanumeric()
}

#[tactic(auto, unfolding(spec_octets::specs::Label::is_letter_digit_hyphen))]
pub fn is_letter_digit_hyphen(b: u8) -> bool
    ensures { result ≡ is_letter_digit_hyphen b }
{
    b == b'-' || is_letter_or_digit(b)
}

#[tactic(auto, unfolding(spec_octets::specs::Octets::is_blank))]
pub fn is_blank(b: u8) -> bool
    ensures { result ≡ is_blank b }
{
    b == b' ' || b == b'\t'
}

// A to Z become a to z; every other octet is unchanged.
#[tactic(auto, unfolding(spec_octets::specs::Octets::lower, spec_octets::specs::Octets::is_upper))]
pub fn to_lower(b: u8) -> u8
    ensures { result ≡ lower b }
{
    b.to_ascii_lowercase()
}
