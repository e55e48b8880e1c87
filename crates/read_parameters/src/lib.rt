// Parameters of issue and issuewild values (RFC 8659 section 4.2).
#![tactic(auto)]

ghost use Rattle.std.specs.Prelude.{◌≡◌};
ghost use Rattle.spec_value.specs.IssueValues.{is_parameter};
ghost use Rattle.read_parameters.specs.Parameters.{are_parameters_in};

use text_classes::Class;

// A parameter with optional white space around it.
fn is_parameter(s: &[u8]) -> bool
    ensures { result ≡ is_parameter s.now }
{
    let p = text_classes::trim_start(text_classes::trim_end(s));
    let e = text_labels::piece_end(p, 0, b'=');
    if p.len() <= e {
        return false;
    }
    let tag = text_classes::trim_end(&p[..e]);
    if !text_labels::is_label(tag) {
        return false; // a tag has the form of a label
    }
    text_classes::all_of(text_classes::trim_start(&p[e + 1..]), Class::ParameterOctet)
}

// The octets after the first semicolon: only white space, or parameters.
pub fn are_parameters(s: &[u8]) -> bool
    ensures { result ≡ are_parameters_in s.now }
{
    if text_classes::all_of(s, Class::Blank) {
        return true;
    }
    let mut at: usize = 0;
    loop {
        let e = text_labels::piece_end(s, at, b';');
        if !is_parameter(&s[at..e]) {
            return false; // a closing semicolon leaves an empty parameter here
        }
        if s.len() <= e {
            return true;
        }
        at = e + 1;
    }
}
