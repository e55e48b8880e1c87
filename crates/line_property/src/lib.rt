// Writes the line of a property, given its flags, tag and value: the presentation format of RFC 8659 section 4.1.1.
#![tactic(auto)]

ghost use Rattle.std.specs.Prelude.{◌≡◌, ◌≤◌, length};
ghost use Rattle.spec_limits.specs.Limits.{max_data_octets};
ghost use Rattle.spec_octets.specs.Buffer.{Put};
ghost use Rattle.line_property.specs.Places.{escaped_value, line_head, quoted_value, line_of, write_property};

use spec_limits::MAX_DATA_OCTETS;
use spec_refusal::Refusal;

// Writes a value as it is in quotes.
fn put_value(v: &[u8], out: &mut [u8]) -> usize
    requires { length (escaped_value v.now) ≤ length out.old }
    ensures { Put (escaped_value v.now) out.old out.new result }
{
    let mut w: usize = 0;
    for b in v {
        w += line_escape::put_escaped(*b, &mut out[w..]);
    }
    w
}

// Writes flags, space and tag.
fn put_head(flags: u8, tag: &[u8], out: &mut [u8]) -> usize
    requires { length (line_head flags tag.now) ≤ length out.old }
    ensures { Put (line_head flags tag.now) out.old out.new result }
{
    let w = text_decimal::put_decimal(flags as u64, out);
    out[w] = b' ';
    let next: usize = w + 1;
    next + text_buffer::put_lowered(tag, &mut out[next..])
}

// Writes a space and the value in quotes.
fn put_quoted(v: &[u8], out: &mut [u8]) -> usize
    requires { length (quoted_value v.now) ≤ length out.old }
    ensures { Put (quoted_value v.now) out.old out.new result }
{
    out[0] = b' ';
    out[1] = b'"';
    let w = 2 + put_value(v, &mut out[2..]);
    out[w] = b'"';
    w + 1
}

// Writes the line.
fn put_line(flags: u8, tag: &[u8], value: &[u8], out: &mut [u8]) -> usize
    requires { length (line_of flags tag.now value.now) ≤ length out.old }
    ensures { Put (line_of flags tag.now value.now) out.old out.new result }
{
    let w = put_head(flags, tag, out);
    w + put_quoted(value, &mut out[w..])
}

// How many octets a value takes in quotes.
fn value_length(v: &[u8]) -> usize
    requires { length v.now ≤ max_data_octets }
    ensures { result ≡ length (escaped_value v.now) }
{
    let mut n: usize = 0;
    for b in v {
        n += line_escape::escaped_length(*b);
    }
    n
}

// How many octets the line takes.
fn line_length(flags: u8, tag: &[u8], value: &[u8]) -> usize
    requires tag_len_bound { length tag.now ≤ max_data_octets }
    requires value_len_bound { length value.now ≤ max_data_octets }
    ensures { result ≡ length (line_of flags tag.now value.now) }
{
    text_decimal::decimal_length(flags as u64) + tag.len() + value_length(value) + 4
}

// Writes the line of a property at the start of the buffer. Nothing is written unless the buffer is long enough and both tag and value are
// within the limit of CAA data.
pub fn write_property(
    flags: u8,
    tag: &[u8],
    value: &[u8],
    buffer: &mut [u8],
) -> Result<usize, Refusal>
    ensures answer { result ≡ (write_property flags tag.now value.now buffer.old).answer }
    ensures octets { buffer.new ≡ (write_property flags tag.now value.now buffer.old).buffer }
{
    if MAX_DATA_OCTETS < tag.len() {
        return Err(Refusal::LineTooLong);
    }
    if MAX_DATA_OCTETS < value.len() {
        return Err(Refusal::LineTooLong);
    }
    let n = line_length(flags, tag, value);
    if buffer.len() < n {
        return Err(Refusal::NoRoom(n));
    }
    put_line(flags, tag, value, buffer);
    Ok(n)
}
