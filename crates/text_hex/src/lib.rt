// Octets in hexadecimal (RFC 6698 section 2.2): two digits written in lower case; the value of one digit in either case.
#![tactic(auto)]

ghost use Rattle.std.specs.Prelude.{◌≡◌, ◌<◌};
ghost use Rattle.spec_octets.specs.Buffer.{filled, filled_length};
ghost use Rattle.spec_tlsa_line.specs.Hex.{hex_digit, hex_octet, is_hex_digit, hex_value};

// The digit of a number below 16.
fn hex_digit(d: u8) -> u8
    requires { d < 16 }
    ensures { result ≡ hex_digit d }
{
    if d < 10 { b'0' + d } else { b'a' + (d - 10) }
}

// Writes the two digits of an octet at the start of the buffer, and returns 2. If they don't fit, nothing is written and 0 is returned.
pub fn put_hex(b: u8, out: &mut [u8]) -> usize
    ensures answer { result ≡ filled_length (hex_octet b) out.old }
    ensures octets { out.new ≡ filled (hex_octet b) out.old }
{
    if out.len() < 2 {
        return 0;
    }
    out[0] = hex_digit(b / 16);
    out[1] = hex_digit(b % 16);
    2
}

#[tactic(auto, unfolding(spec_tlsa_line::specs::Hex::is_hex_digit, spec_octets::specs::Octets::is_digit))]
pub fn is_hex_digit(b: u8) -> bool
    ensures { result ≡ is_hex_digit b }
{
    matches!(b, b'0'..=b'9' | b'A'..=b'F' | b'a'..=b'f')
}

// The value of a digit, in either letter case. Any other octet has the value that the definition gives it.
#[tactic(auto, unfolding(spec_tlsa_line::specs::Hex::hex_value, spec_octets::specs::Octets::is_digit, spec_octets::specs::Octets::is_upper))]
pub fn hex_value(b: u8) -> u8
    ensures { result ≡ hex_value b }
{
    match b {
        b'0'..=b'9' => b - b'0',
        b'A'..=b'Z' => 10 + (b - b'A'),
        b'a'..=u8::MAX => 10 + (b - b'a'),
        _ => 10,
    }
}
