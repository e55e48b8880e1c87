// Written octets: what stands for one octet of a value in a line. It is the octet itself, \X (a backslash and a character) or \DDD.
#![tactic(auto)]

ghost use Rattle.std.specs.Prelude.{◌≡◌};
ghost use Rattle.spec_line.specs.Read.{is_in_quotes, is_bare};
ghost use Rattle.line_octet.specs.Places.{plain_in, escape_at, written_octet_at};

// How a value is written: in quotes, or bare. The reader of a value hands it on in its answer, so it is a value and not a closure.
#[derive(Clone, Copy)]
pub enum Style {
    Quoted,
    Bare,
}

// The octets that need no escape: in quotes, and bare.
#[tactic(auto, unfolding(spec_line::specs::Read::is_in_quotes))]
fn is_in_quotes(b: u8) -> bool
    ensures { result ≡ is_in_quotes b }
{
    32 <= b && b <= 126 && b != b'"' && b != b'\\'
}

#[tactic(auto, using(crate::proofs::UnitPlaces::bare_in_quotes), unfolding(spec_line::specs::Read::is_bare))]
fn is_bare(b: u8) -> bool
    ensures { result ≡ is_bare b }
{
    33 <= b && b != b';' && b != b'(' && b != b')' && is_in_quotes(b)
}

fn stands_for_itself(b: u8, style: Style) -> bool
    ensures { result ≡ plain_in style b }
{
    match style {
        Style::Quoted => is_in_quotes(b),
        Style::Bare => is_bare(b),
    }
}

// The octet that a written octet stands for, and the offset after it.
#[derive(Clone, Copy)]
pub struct WrittenOctetAt {
    pub octet: u8,
    pub next: usize,
}

// What follows a backslash: three digits up to 255, or a non-digit 32 to 126.
fn read_escape(s: &[u8], at: usize) -> Option<WrittenOctetAt>
    ensures { result ≡ escape_at s.now at }
{
    let x = *s.get(at)?;
    if text_ascii::is_digit(x) {
        if s.len() - at < 3 {
            return None;
        }
        let next = at + 3;
        let octet = text_decimal::decimal_octet(&s[at..next])?;
        return Some(WrittenOctetAt { octet, next });
    }
    if x < 32 {
        return None;
    }
    if 126 < x {
        return None;
    }
    Some(WrittenOctetAt {
        octet: x,
        next: at + 1,
    })
}

pub fn read_written_octet(s: &[u8], at: usize, style: Style) -> Option<WrittenOctetAt>
    ensures { result ≡ written_octet_at style s.now at }
{
    let x = *s.get(at)?;
    let next = at + 1;
    if x == b'\\' {
        return read_escape(s, next);
    }
    if !stands_for_itself(x, style) {
        return None;
    }
    // A return for each answer: where their values meet in one expression, the compiler copies each octet of a line through memory.
    Some(WrittenOctetAt { octet: x, next })
}
