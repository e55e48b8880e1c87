// Tests of all octets of a text against a class, and removal of white space at either end.
#![tactic(auto)]

ghost use Rattle.std.specs.Prelude.{◌≡◌};
ghost use Rattle.spec_octets.specs.Lists.{all};
ghost use Rattle.spec_octets.specs.Octets.{trim_start, trim_end, is_parameter_octet};
ghost use Rattle.text_classes.specs.Classes.{in_class};

// Classes of octets: of labels, tags and values, and white space (Blank: space or tab, RFC 5234 WSP).
#[derive(Clone, Copy)]
pub enum Class {
    Blank,
    LetterOrDigit,
    LetterDigitHyphen,
    ParameterOctet,
}

// The octets of a parameter's value (RFC 8659 section 4.2): 33 to 126 except the semicolon.
#[tactic(auto, unfolding(spec_octets::specs::Octets::is_parameter_octet))]
fn is_parameter_octet(b: u8) -> bool
    ensures { result ≡ is_parameter_octet b }
{
    33 <= b && b <= 126 && b != b';'
}

// Whether an octet is in a class.
fn is_in(b: u8, class: Class) -> bool
    ensures { result ≡ in_class class b }
{
    match class {
        Class::Blank => text_ascii::is_blank(b),
        Class::LetterOrDigit => text_ascii::is_letter_or_digit(b),
        Class::LetterDigitHyphen => text_ascii::is_letter_digit_hyphen(b),
        Class::ParameterOctet => is_parameter_octet(b),
    }
}

// Whether every octet is in a class.
pub fn all_of(s: &[u8], class: Class) -> bool
    ensures { result ≡ all (in_class class) s.now }
{
    for b in s {
        if !is_in(*b, class) {
            return false;
        }
    }
    true
}

// Removes leading white space.
pub fn trim_start(s: &[u8]) -> &[u8]
    ensures { result.now ≡ trim_start s.now }
{
    let mut t = s;
    while let [first, rest @ ..] = t
        && text_ascii::is_blank(*first)
    {
        t = rest;
    }
    t
}

// Removes trailing white space.
pub fn trim_end(s: &[u8]) -> &[u8]
    ensures { result.now ≡ trim_end s.now }
{
    let mut t = s;
    while let [front @ .., last] = t
        && text_ascii::is_blank(*last)
    {
        t = front;
    }
    t
}
