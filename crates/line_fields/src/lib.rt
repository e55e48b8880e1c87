// The fields of a line, separated by white space: where each ends, and where the next begins.
#![tactic(auto)]

ghost use Rattle.std.specs.Prelude.{◌≡◌};
ghost use Rattle.line_fields.specs.Places.{field_end, field_at};

// The offset of the first white space from offset `at` on; the end of s if there is none.
fn field_end(s: &[u8], at: usize) -> usize
    ensures { result ≡ field_end s.now at }
{
    let mut e: usize = at;
    while e < s.len() {
        if text_ascii::is_blank(s[e]) {
            return e;
        }
        e += 1;
    }
    e
}

// Where a field ends, and where the next begins, after the white space.
#[derive(Clone, Copy)]
pub struct FieldAt {
    pub end: usize,
    pub next: usize,
}

// The field that begins at offset `at`; a fault if no white space follows it.
pub fn read_field(s: &[u8], at: usize) -> Option<FieldAt>
    ensures { result ≡ field_at s.now at }
{
    let end = field_end(s, at);
    if s.len() <= end {
        return None;
    }
    let rest = text_classes::trim_start(&s[end..]);
    let next = s.len() - rest.len();
    Some(FieldAt { end, next })
}
