// DER elements (X.690 section 8.1): reading one at an offset.
#![tactic(auto)]

ghost use Rattle.std.specs.Prelude.{◌≡◌, ◌<◌, length, get_or};
ghost use Rattle.read_element.specs.Places.{length_at, element_at, tagged_at};

// The length of an element's contents, and the offset after the length octets.
#[derive(Clone, Copy)]
pub struct LengthAt {
    pub value: usize,
    pub next: usize,
}

// Reads the length octets that begin at offset `at`: one octet below 128; 129 and an octet from 128 on; 130 and two octets, a number from 256 on.
fn read_length(s: &[u8], at: usize) -> Option<LengthAt>
    ensures { result ≡ length_at s.now at }
{
    let x = usize::from(*s.get(at)?);
    let second = at + 1;
    if x < 128 {
        return Some(LengthAt {
            value: x,
            next: second,
        });
    }
    let y = usize::from(*s.get(second)?);
    let third = second + 1;
    match x {
        129 if 128 <= y => Some(LengthAt {
            value: y,
            next: third,
        }),
        130 if y != 0 => {
            let z = usize::from(*s.get(third)?);
            Some(LengthAt {
                value: y * 256 + z,
                next: third + 1,
            })
        }
        _ => None,
    }
}

// An element by its tag and its offsets: where the contents begin and where they end.
#[derive(Clone, Copy)]
pub struct ElementAt {
    pub tag: u8,
    pub contents: usize,
    pub next: usize,
}

// Reads the element that begins at offset `at`.
pub fn read_element(s: &[u8], at: usize) -> Option<ElementAt>
    ensures { result ≡ element_at s.now at }
{
    let tag = *s.get(at)?;
    if tag % 32 == 31 {
        return None;
    }
    let l = read_length(s, at + 1)?;
    let contents = l.next;
    let n = l.value;
    if s.len() - contents < n {
        return None;
    }
    let next = contents + n;
    Some(ElementAt {
        tag,
        contents,
        next,
    })
}

// Reads the element that begins at offset `at`, if it has this tag.
pub fn read_tagged(s: &[u8], at: usize, tag: u8) -> Option<ElementAt>
    ensures { result ≡ tagged_at tag s.now at }
{
    let e = read_element(s, at)?;
    if e.tag == tag { Some(e) } else { None }
}
