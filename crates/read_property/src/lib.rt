// CAA data (RFC 8659 section 4.1): its property, tag and value, and whether it is well formed.
#![tactic(auto)]

ghost use Rattle.std.specs.Prelude.{◌≡◌};
ghost use Rattle.spec_record.specs.Property.{property, tag_of};
ghost use Rattle.spec_record.specs.Records.{is_caa_data};
ghost use Rattle.read_property.specs.Places.{property_at, tag_part, value_part};

use spec_record::PropertyTag;
use text_classes::Class;

#[tactic(auto, unfolding(spec_record::specs::Property::tag_of))]
pub fn tag_of(t: &[u8]) -> PropertyTag
    ensures { result ≡ tag_of t.now }
{
    if text_compare::same_ignoring_case(t, b"issue") {
        return PropertyTag::Issue;
    }
    if text_compare::same_ignoring_case(t, b"issuewild") {
        return PropertyTag::IssueWild;
    }
    if text_compare::same_ignoring_case(t, b"iodef") {
        return PropertyTag::Iodef;
    }
    PropertyTag::Unknown
}

// The flags, and the offset of the value. The tag is the octets from offset 2 up to there.
#[derive(Clone, Copy)]
pub struct PropertyAt {
    pub flags: u8,
    pub value: usize,
}

pub fn read_property(d: &[u8]) -> Option<PropertyAt>
    ensures { result ≡ property_at d.now }
{
    if d.len() < 2 {
        return None;
    }
    let n = usize::from(d[1]);
    if n == 0 || d.len() - 2 < n {
        return None;
    }
    Some(PropertyAt {
        flags: d[0],
        value: 2 + n,
    })
}

// The tag and the value of CAA data as slices of it; empty if the data is malformed.
pub fn tag_part(d: &[u8]) -> &[u8]
    ensures { result.now ≡ tag_part d.now }
{
    match read_property(d) {
        Some(p) => &d[2..p.value],
        None => &d[..0],
    }
}

pub fn value_part(d: &[u8]) -> &[u8]
    ensures { result.now ≡ value_part d.now }
{
    match read_property(d) {
        Some(p) => &d[p.value..],
        None => &d[..0],
    }
}

// Whether CAA data is well formed: it holds a property, and its tag is letters and digits.
pub fn is_caa_data(d: &[u8]) -> bool
    ensures { result ≡ is_caa_data (property d.now) }
{
    match read_property(d) {
        Some(p) => text_classes::all_of(&d[2..p.value], Class::LetterOrDigit),
        None => false,
    }
}
