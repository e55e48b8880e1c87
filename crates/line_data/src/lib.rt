// Writes the CAA data of a property, given its flags, its tag and the written octets of its value.
#![tactic(auto)]

ghost use Rattle.std.specs.Prelude.{◌≡◌, true, ◌+◌, ◌≤◌, length};
ghost use Rattle.spec_limits.specs.Limits.{max_tag_octets};
ghost use Rattle.spec_octets.specs.Buffer.{Put};
ghost use Rattle.line_data.specs.Places.{unescaped_count, is_escaped_text, unescaped_octets, data_head, data_of, write_data};

use line_octet::Style;
use spec_limits::{MAX_DATA_OCTETS, MAX_TAG_OCTETS};
use spec_refusal::Refusal;

// How many octets the value has.
fn count_unescaped(s: &[u8], style: Style) -> Option<usize>
    ensures { result ≡ unescaped_count style s.now }
{
    let mut at: usize = 0;
    let mut n: usize = 0;
    while at < s.len() {
        let u = line_octet::read_written_octet(s, at, style)?;
        at = u.next;
        n += 1;
    }
    Some(n)
}

// Writes the value that the written octets stand for.
fn put_unescaped(s: &[u8], style: Style, out: &mut [u8]) -> usize
    requires s_value { is_escaped_text style s.now ≡ true }
    requires s_in_bounds { length (unescaped_octets style s.now) ≤ length out.old }
    ensures { Put (unescaped_octets style s.now) out.old out.new result }
{
    let mut at: usize = 0;
    let mut w: usize = 0;
    while at < s.len() {
        let Some(u) = line_octet::read_written_octet(s, at, style) else {
            return w;
        };
        out[w] = u.octet;
        at = u.next;
        w += 1;
    }
    w
}

// Writes flags, tag length and tag.
fn put_tag(flags: u8, tag: &[u8], out: &mut [u8]) -> usize
    requires tag_len_bound { length tag.now ≤ max_tag_octets }
    requires tag_in_bounds { length (data_head flags tag.now) ≤ length out.old }
    ensures { Put (data_head flags tag.now) out.old out.new result }
{
    out[0] = flags;
    out[1] = tag.len() as u8;
    2 + text_buffer::put_octets(tag, &mut out[2..])
}

// Writes the CAA data. `units` are the written octets of the value.
fn put_data(flags: u8, tag: &[u8], units: &[u8], style: Style, out: &mut [u8]) -> usize
    requires tag_len_bound { length tag.now ≤ max_tag_octets }
    requires units_value { is_escaped_text style units.now ≡ true }
    requires units_in_bounds { 2 + length tag.now + length (unescaped_octets style units.now) ≤ length out.old }
    ensures { Put (data_of flags tag.now (unescaped_octets style units.now)) out.old out.new result }
{
    let w = put_tag(flags, tag, out);
    w + put_unescaped(units, style, &mut out[w..])
}

// Writes the CAA data of a property at the start of the buffer. Nothing is written unless the buffer is long enough and the tag fits its
// length octet.
pub fn write_data(
    flags: u8,
    tag: &[u8],
    units: &[u8],
    style: Style,
    buffer: &mut [u8],
) -> Result<usize, Refusal>
    ensures answer { result ≡ (write_data flags tag.now style units.now buffer.old).answer }
    ensures octets { buffer.new ≡ (write_data flags tag.now style units.now buffer.old).buffer }
{
    if MAX_TAG_OCTETS < tag.len() {
        return Err(Refusal::BadLine);
    }
    let k = count_unescaped(units, style).ok_or(Refusal::BadLine)?;
    if MAX_DATA_OCTETS - 2 - tag.len() < k {
        return Err(Refusal::LineTooLong);
    }
    let size = 2 + tag.len() + k;
    if buffer.len() < size {
        return Err(Refusal::NoRoom(size));
    }
    put_data(flags, tag, units, style, buffer);
    Ok(size)
}
