// Numbers in decimal, read and written.
#![tactic(auto)]

ghost use Rattle.std.specs.Prelude.{◌≡◌, ◌≤◌, length};
ghost use Rattle.spec_octets.specs.WrittenDecimal.{decimal, three_digits};
ghost use Rattle.spec_octets.specs.Buffer.{Put, filled, filled_length};
ghost use Rattle.text_decimal.specs.Places.{decimal_in};

// Reads an octet in decimal: 1 to 3 digits, at most 255. None for any other text.
pub fn decimal_octet(s: &[u8]) -> Option<u8>
    ensures { result ≡ decimal_in s.now }
{
    if s.is_empty() || 3 < s.len() {
        return None;
    }
    let mut n: u8 = 0;
    for b in s {
        if !text_ascii::is_digit(*b) {
            return None;
        }
        n = n.checked_mul(10)?.checked_add(*b - b'0')?;
    }
    Some(n)
}

// Writes an octet as three digits at the start of the buffer, and returns 3. If they don't fit, nothing is written and 0 is returned.
pub fn put_three_digits(b: u8, out: &mut [u8]) -> usize
    ensures answer { result ≡ filled_length (three_digits b) out.old }
    ensures octets { out.new ≡ filled (three_digits b) out.old }
{
    text_buffer::put_octets(&[b'0' + b / 100, b'0' + b / 10 % 10, b'0' + b % 10], out)
}

// How many digits a number has in decimal.
pub fn decimal_length(n: u64) -> usize
    ensures { result ≡ length (decimal n) }
{
    let mut count: usize = 1;
    let mut left = n;
    while 10 <= left {
        left = left / 10;
        count += 1;
    }
    count
}

// Writes the digits of a number, the most significant first.
fn put_digits(n: u64, out: &mut [u8]) -> usize
    requires { length (decimal n) ≤ length out.old }
    ensures { Put (decimal n) out.old out.new result }
{
    if n < 10 {
        out[0] = b'0' + n as u8;
        return 1;
    }
    let w = put_digits(n / 10, out);
    out[w] = b'0' + (n % 10) as u8;
    w + 1
}

// Writes a number without leading zeros at the start of the buffer, and returns how many digits. If they don't fit, nothing is written
// and 0 is returned.
pub fn put_decimal(n: u64, out: &mut [u8]) -> usize
    ensures answer { result ≡ filled_length (decimal n) out.old }
    ensures octets { out.new ≡ filled (decimal n) out.old }
{
    let count = decimal_length(n);
    if out.len() < count {
        return 0;
    }
    put_digits(n, out)
}
