// The parts of a line, as offsets into it: flags, tag and value.
#![tactic(auto)]

ghost use Rattle.std.specs.Prelude.{◌≡◌};
ghost use Rattle.spec_line.specs.Read.{is_line_tag};
ghost use Rattle.line_parts.specs.Places.{line_at, line_value_at};

use line_octet::Style;
use spec_limits::MAX_TAG_OCTETS;
use text_classes::Class;

// 1 to 255 letters and digits.
fn is_line_tag(t: &[u8]) -> bool
    ensures { result ≡ is_line_tag t.now }
{
    t.len() != 0 && t.len() <= MAX_TAG_OCTETS && text_classes::all_of(t, Class::LetterOrDigit)
}

// The flags of a line, the offsets where its tag begins and ends, and the offset of its value.
#[derive(Clone, Copy)]
pub struct LineAt {
    pub flags: u8,
    pub tag: usize,
    pub end: usize,
    pub value: usize,
}

// Reads the fields of a line and checks flags and tag.
pub fn read_fields(s: &[u8]) -> Option<LineAt>
    ensures { result ≡ line_at s.now }
{
    let f = line_fields::read_field(s, 0)?;
    let e = f.end;
    let flags = text_decimal::decimal_octet(&s[..e])?;
    let tag = f.next;
    let t = line_fields::read_field(s, tag)?;
    let end = t.end;
    if !is_line_tag(&s[tag..end]) {
        return None;
    }
    Some(LineAt {
        flags,
        tag,
        end,
        value: t.next,
    })
}

// The offsets in a value where its written octets begin and end, and how it is written.
#[derive(Clone, Copy)]
pub struct LineValueAt {
    pub from: usize,
    pub end: usize,
    pub style: Style,
}

// A value in quotes, or a bare one that is not empty.
pub fn read_line_value(v: &[u8]) -> Option<LineValueAt>
    ensures { result ≡ line_value_at v.now }
{
    let n = v.len();
    if n == 0 {
        return None;
    }
    if v[0] != b'"' {
        return Some(LineValueAt {
            from: 0,
            end: n,
            style: Style::Bare,
        });
    }
    if n == 1 {
        return None;
    }
    let end: usize = n - 1;
    if v[end] != b'"' {
        return None;
    }
    Some(LineValueAt {
        from: 1,
        end,
        style: Style::Quoted,
    })
}
