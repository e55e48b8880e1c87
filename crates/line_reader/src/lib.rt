// Reads a line of text as CAA data: the presentation format of RFC 8659 section 4.1.1.
#![tactic(auto)]

ghost use Rattle.std.specs.Prelude.{◌≡◌};
ghost use Rattle.spec_line.specs.Calls.{parse_line};

use spec_limits::MAX_LINE_OCTETS;
use spec_refusal::Refusal;

// Writes the CAA data of a line at the start of the buffer. Nothing is written unless the buffer is long enough.
pub fn read_line(line: &[u8], buffer: &mut [u8]) -> Result<usize, Refusal>
    ensures answer { result ≡ (parse_line line.now buffer.old).answer }
    ensures octets { buffer.new ≡ (parse_line line.now buffer.old).buffer }
{
    if MAX_LINE_OCTETS < line.len() {
        return Err(Refusal::LineTooLong);
    }
    let l = line_parts::read_fields(line).ok_or(Refusal::BadLine)?;
    let at = l.value;
    let value = &line[at..];
    let v = line_parts::read_line_value(value).ok_or(Refusal::BadLine)?;
    let from = v.from;
    let to = v.end;
    let style = v.style;
    let units = &value[from..to];
    let first = l.tag;
    let end = l.end;
    let tag = &line[first..end];
    line_data::write_data(l.flags, tag, units, style, buffer)
}
