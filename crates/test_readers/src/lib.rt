// The readers, exported as one call, so that the independent implementation can be compared with them. Offsets are returned modulo the
// size of their field: 2^24 in a, 2^16 in b and c.
#![tactic(auto)]

ghost use Rattle.std.specs.Prelude.{◌≡◌};
ghost use Rattle.spec_octets.specs.Octets.{equal_ignoring_case};
ghost use Rattle.read_name.specs.Places.{name_end};
ghost use Rattle.read_request.specs.Places.{requested_at};
ghost use Rattle.spec_record.specs.Property.{tag_of};
ghost use Rattle.read_property.specs.Places.{property_at};
ghost use Rattle.read_record.specs.Places.{record_at};
ghost use Rattle.read_value.specs.Places.{value_at};
ghost use Rattle.test_readers.specs.Packs.{packed_bool, packed_end, packed_requested, packed_property, packed_tag, packed_record, packed_value};
ghost use Rattle.test_readers.specs.Answers.{reader_answer};

use read_value::ValueRead;
use spec_record::PropertyTag;

// 1 if the two texts are equal, ignoring case.
fn same(s: &[u8], t: &[u8]) -> u64
    ensures { result ≡ packed_bool (equal_ignoring_case s.now t.now) }
{
    if text_compare::same_ignoring_case(s, t) {
        return 1;
    }
    0
}

// 0: rejected. 1: a has the offset after the name.
fn name_end(s: &[u8], at: usize) -> u64
    ensures { result ≡ packed_end (name_end s.now at) }
{
    let Some(e) = read_name::name_end(s, at) else {
        return 0;
    };
    spec_packed::pack(1, e as u64, 0, 0)
}

// 0: rejected. 1, or 2 for a wildcard: a has the offset after the name, b the offset of its X.
fn requested_name(s: &[u8], at: usize) -> u64
    ensures { result ≡ packed_requested (requested_at s.now at) }
{
    let Some(n) = read_request::requested_name(s, at) else {
        return 0;
    };
    if n.wildcard {
        return spec_packed::pack(2, n.next as u64, n.base as u64, 0);
    }
    spec_packed::pack(1, n.next as u64, n.base as u64, 0)
}

// 0: rejected. 1: a has the offset of the value, b the flags.
fn property(d: &[u8]) -> u64
    ensures { result ≡ packed_property (property_at d.now) }
{
    let Some(p) = read_property::read_property(d) else {
        return 0;
    };
    spec_packed::pack(1, p.value as u64, p.flags as u64, 0)
}

// 0 unknown, 1 issue, 2 issuewild, 3 iodef.
fn tag(t: &[u8]) -> u64
    ensures { result ≡ packed_tag (tag_of t.now) }
{
    match read_property::tag_of(t) {
        PropertyTag::Unknown => 0,
        PropertyTag::Issue => 1,
        PropertyTag::IssueWild => 2,
        PropertyTag::Iodef => 3,
    }
}

// 0: rejected. 1: a has the offset after the record, b the offset after its owner, c the offset of its data.
fn record(s: &[u8], at: usize) -> u64
    ensures { result ≡ packed_record (record_at s.now at) }
{
    let Some(r) = read_record::read_record(s, at) else {
        return 0;
    };
    spec_packed::pack(1, r.next as u64, r.owner_end as u64, r.rdata as u64)
}

// 0: malformed. 1: no name. 2: a has the offset after the name, b the offset of its first octet.
fn value(v: &[u8]) -> u64
    ensures { result ≡ packed_value (value_at v.now) }
{
    match read_value::read_value(v) {
        ValueRead::Malformed => 0,
        ValueRead::Nameless => 1,
        ValueRead::Named(n) => spec_packed::pack(2, n.to as u64, n.from as u64, 0),
    }
}

// The answer of the reader with this number. Reader 1 compares s and t; 2, 3 and 6 read s from offset `at` on; the others read s.
#[tactic(auto, unfolding(crate::specs::Answers::reader_answer))]
pub fn readers_answer(number: usize, s: &[u8], t: &[u8], at: usize) -> u64
    ensures { result ≡ reader_answer number s.now t.now at }
{
    match number {
        1 => same(s, t),
        2 => name_end(s, at),
        3 => requested_name(s, at),
        4 => property(s),
        5 => tag(s),
        6 => record(s, at),
        _ => value(s),
    }
}
