// Writes CAA data as a line of text: the presentation format of RFC 8659 section 4.1.1.
#![tactic(auto)]

ghost use Rattle.std.specs.Prelude.{◌≡◌};
ghost use Rattle.spec_line.specs.Calls.{write_line};

use spec_limits::MAX_DATA_OCTETS;
use spec_refusal::Refusal;
use text_classes::Class;

// Writes the line of CAA data at the start of the buffer. Nothing is written unless the buffer is long enough.
pub fn write_line(d: &[u8], buffer: &mut [u8]) -> Result<usize, Refusal>
    ensures answer { result ≡ (write_line d.now buffer.old).answer }
    ensures octets { buffer.new ≡ (write_line d.now buffer.old).buffer }
{
    if MAX_DATA_OCTETS < d.len() {
        return Err(Refusal::LineTooLong);
    }
    let p = read_property::read_property(d).ok_or(Refusal::BadData)?;
    let tag = read_property::tag_part(d);
    if !text_classes::all_of(tag, Class::LetterOrDigit) {
        return Err(Refusal::BadData);
    }
    let value = read_property::value_part(d);
    line_property::write_property(p.flags, tag, value, buffer)
}
