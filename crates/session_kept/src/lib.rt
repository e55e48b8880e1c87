// The texts of a session: how they are kept, and where in the kept name the name asked for begins.
#![tactic(auto)]

ghost use Rattle.std.specs.Prelude.{◌≡◌, length, drop};
ghost use Rattle.spec_name.specs.Names.{Name, wire, GoodName};
ghost use Rattle.spec_session.specs.Sessions.{text_of, held};
ghost use Rattle.session_kept.specs.Places.{held_length, above_at, name_above};

use read_name::Climb;
use spec_session::{MAX_TEXT_OCTETS, Text};

// A part of a text.
#[derive(Clone, Copy)]
pub struct Part {
    pub offset: usize,
    pub length: usize,
}

// The name asked for: its part of the kept name, and whether the requested name is a wildcard.
#[derive(Clone, Copy)]
pub struct Place {
    pub offset: usize,
    pub length: usize,
    pub wildcard: bool,
}

// Keeps a text: its octets, and zeros behind them.
pub fn keep_text(s: &[u8]) -> Text
    ensures { result ≡ text_of s.now }
{
    let mut octets = [0u8; MAX_TEXT_OCTETS];
    let n = s.len().min(MAX_TEXT_OCTETS);
    octets[..n].copy_from_slice(&s[..n]);
    Text {
        length: s.len(),
        octets,
    }
}

// How many octets of a kept text count. A length beyond the room leaves no text.
pub fn held_length(t: Text) -> usize
    ensures { result ≡ held_length t }
{
    if t.length <= MAX_TEXT_OCTETS {
        t.length
    } else {
        0
    }
}

// The octets of a kept text that count.
pub fn held_part(t: &Text) -> &[u8]
    ensures { result.now ≡ held t.now }
{
    &t.octets[..held_length(*t)]
}

// Takes `up` labels off the name that begins at `base` and ends with the octets: what is left, or None where that is nothing but the root.
fn label_above(name: &[u8], base: usize, up: usize) -> Option<Part>
    ensures { (x : Name) → GoodName x → drop base name.now ≡ wire x → result ≡ above_at (length name.now) x up }
{
    let mut at = base;
    let mut left = up;
    // A `for` over `up` would test for the closing zero twice: within it and behind it.
    loop {
        let next = Climb { at }.up(name).at;
        // The closing zero.
        if next <= at {
            return None;
        }
        if left == 0 {
            return Some(Part {
                offset: at,
                length: name.len() - at,
            });
        }
        at = next;
        left -= 1;
    }
}

// Reads octets that are one requested name and nothing more, and takes `up` labels off its X.
pub fn name_above(name: &[u8], up: usize) -> Option<Place>
    ensures { result ≡ name_above name.now up }
{
    let n = read_request::requested_name(name, 0)?;
    if n.next < name.len() {
        return None;
    }
    let p = label_above(name, n.base, up)?;
    Some(Place {
        offset: p.offset,
        length: p.length,
        wildcard: n.wildcard,
    })
}
