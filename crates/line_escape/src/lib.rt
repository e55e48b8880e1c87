// How one octet of a value is written in quotes: as itself, as \X (a backslash and the octet), or as \DDD.
#![tactic(auto)]

ghost use Rattle.std.specs.Prelude.{◌≡◌, length};
ghost use Rattle.spec_octets.specs.Buffer.{filled, filled_length};
ghost use Rattle.spec_line.specs.Written.{escaped};

// How many octets one octet of a value takes in quotes.
#[tactic(auto, unfolding(spec_line::specs::Written::escaped))]
pub fn escaped_length(octet: u8) -> usize
    ensures { result ≡ length (escaped octet) }
{
    match octet {
        b'"' | b'\\' => 2,
        32..=126 => 1,
        _ => 4,
    }
}

// Writes one octet of a value as it is in quotes, and returns how many octets that took. If they don't fit, nothing is written and 0 is
// returned.
pub fn put_escaped(b: u8, out: &mut [u8]) -> usize
    ensures answer { result ≡ filled_length (escaped b) out.old }
    ensures octets { out.new ≡ filled (escaped b) out.old }
{
    let n = escaped_length(b);
    if out.len() < n {
        return 0;
    }
    if n == 1 {
        out[0] = b;
        return 1;
    }
    out[0] = b'\\';
    if n == 2 {
        out[1] = b;
        return 2;
    }
    1 + text_decimal::put_three_digits(b, &mut out[1..])
}
