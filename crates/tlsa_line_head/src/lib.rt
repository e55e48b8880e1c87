// The number fields of a TLSA line (RFC 6698 section 2.2), written: usage, selector and matching type, each with a space behind it.
#![tactic(auto)]

ghost use Rattle.std.specs.Prelude.{◌≡◌, ◌≤◌, length};
ghost use Rattle.spec_octets.specs.Buffer.{Put, filled, filled_length};
ghost use Rattle.tlsa_line_head.specs.Places.{number_field, two_numbers, line_head};

// Writes a number and a space.
fn put_number(n: u8, out: &mut [u8]) -> usize
    requires { length (number_field n) ≤ length out.old }
    ensures { Put (number_field n) out.old out.new result }
{
    let w = text_decimal::put_decimal(n as u64, out);
    out[w] = b' ';
    w + 1
}

// Writes usage and selector.
fn put_two(usage: u8, selector: u8, out: &mut [u8]) -> usize
    requires { length (two_numbers usage selector) ≤ length out.old }
    ensures { Put (two_numbers usage selector) out.old out.new result }
{
    let w = put_number(usage, out);
    w + put_number(selector, &mut out[w..])
}

// Writes usage, selector and matching type.
fn put_three(usage: u8, selector: u8, matching: u8, out: &mut [u8]) -> usize
    requires { length (line_head usage selector matching) ≤ length out.old }
    ensures { Put (line_head usage selector matching) out.old out.new result }
{
    let w = put_two(usage, selector, out);
    w + put_number(matching, &mut out[w..])
}

// How many octets the three numbers take, each with its space.
pub fn head_length(usage: u8, selector: u8, matching: u8) -> usize
    ensures { result ≡ length (line_head usage selector matching) }
{
    let u = text_decimal::decimal_length(usage as u64);
    let s = text_decimal::decimal_length(selector as u64);
    let m = text_decimal::decimal_length(matching as u64);
    u + s + m + 3
}

// Writes the three numbers, each with its space, and returns how many octets that took. If they don't fit, nothing is written and 0 is returned.
pub fn put_head(usage: u8, selector: u8, matching: u8, out: &mut [u8]) -> usize
    ensures answer { result ≡ filled_length (line_head usage selector matching) out.old }
    ensures octets { out.new ≡ filled (line_head usage selector matching) out.old }
{
    let n = head_length(usage, selector, matching);
    if out.len() < n {
        return 0;
    }
    put_three(usage, selector, matching, out)
}
