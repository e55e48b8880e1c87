// The issuer domain name in a value of an issue or issuewild property, and where its parameters begin (RFC 8659 section 4.2).
#![tactic(auto)]

ghost use Rattle.std.specs.Prelude.{◌≡◌};
ghost use Rattle.spec_value.specs.IssueValues.{trim, name_in};
ghost use Rattle.read_value.specs.Places.{name_places, value_at};

// The issuer domain name in a value: the offset of its first octet, and the offset after its last. And where the parameters begin:
// the offset after the first semicolon, or the end of the value.
#[derive(Clone, Copy)]
pub struct NameAt {
    pub from: usize,
    pub to: usize,
    pub parameters: usize,
}

#[derive(Clone, Copy)]
pub enum ValueRead {
    // The value doesn't match the grammar.
    Malformed,
    // It matches, without a name.
    Nameless,
    Named(NameAt),
}

// A name with optional white space around it, or only white space. The parameters of the value begin at another offset.
fn read_name(s: &[u8], parameters: usize) -> ValueRead
    ensures { result ≡ name_places s.now parameters (name_in (trim s.now)) }
{
    let front = text_classes::trim_end(s);
    let name = text_classes::trim_start(front);
    if name.is_empty() {
        ValueRead::Nameless
    } else if text_labels::are_labels(name, name.len()) {
        // Labels of any length: the limit of 63 octets is checked where the name is used.
        ValueRead::Named(NameAt {
            from: front.len() - name.len(),
            to: front.len(),
            parameters,
        })
    } else {
        ValueRead::Malformed
    }
}

pub fn read_value(s: &[u8]) -> ValueRead
    ensures { result ≡ value_at s.now }
{
    let e = text_labels::piece_end(s, 0, b';');
    let mut parameters = e;
    if e < s.len() {
        parameters = e + 1;
        if !read_parameters::are_parameters(&s[parameters..]) {
            return ValueRead::Malformed;
        }
    }
    read_name(&s[..e], parameters)
}
