// The tag and the value of one parameter of an issue value (RFC 8659 section 4.2), as slices of its text.
#![tactic(auto)]

ghost use Rattle.std.specs.Prelude.{◌≡◌};
ghost use Rattle.spec_value.specs.Parameters.{parameter_in};

// The tag: the octets before the first "=", without the white space around them.
pub fn parameter_tag(s: &[u8]) -> &[u8]
    ensures { result.now ≡ (parameter_in s.now).tag }
{
    let p = text_classes::trim_start(text_classes::trim_end(s));
    let end = text_labels::piece_end(p, 0, b'=');
    text_classes::trim_end(&p[..end])
}

// The value: the octets after the first "=", without the white space around them; empty without a "=".
pub fn parameter_value(s: &[u8]) -> &[u8]
    ensures { result.now ≡ (parameter_in s.now).value }
{
    let t = text_classes::trim_start(text_classes::trim_end(s));
    let equals = text_labels::piece_end(t, 0, b'=');
    if t.len() <= equals {
        return &t[0..0];
    }
    text_classes::trim_start(&t[equals + 1..])
}
