// Resource records (RFC 1035 section 3.2.1): reading one at an offset, and checking a whole book.
#![tactic(auto)]

ghost use Rattle.std.specs.Prelude.{◌≡◌, ◌+◌, ◌≤◌, length, take, drop};
ghost use Rattle.spec_octets.specs.Reader.{value_from};
ghost use Rattle.spec_record.specs.Records.{is_caa, is_alias, target, is_some, is_laid_out};
ghost use Rattle.read_record.specs.Places.{fields_at, record_at};
ghost use Rattle.read_record.specs.Layouts.{layout_of};

use spec_limits::{MAX_BOOK_OCTETS, MAX_RECORDS};
use spec_refusal::{RecordNo, Refusal};

// Class 1 with type 257 is a CAA record.
#[tactic(auto, unfolding(spec_record::specs::Records::is_caa))]
pub fn is_caa(rtype: usize, class: usize) -> bool
    ensures { result ≡ is_caa rtype class }
{
    rtype == 257 && class == 1
}

// Class 1 with type 5 is an alias.
#[tactic(auto, unfolding(spec_record::specs::Records::is_alias))]
pub fn is_alias(rtype: usize, class: usize) -> bool
    ensures { result ≡ is_alias rtype class }
{
    rtype == 5 && class == 1
}

// Whether one name fills the data.
fn is_target(d: &[u8]) -> bool
    ensures { result ≡ is_some (target d.now) }
{
    read_name::name_end(d, 0) == Some(d.len())
}

// Whether data is well formed for its type and class.
fn is_laid_out(rtype: usize, class: usize, d: &[u8]) -> bool
    ensures { result ≡ is_laid_out rtype class d.now }
{
    if is_caa(rtype, class) {
        read_property::is_caa_data(d)
    } else if is_alias(rtype, class) {
        is_target(d)
    } else {
        true
    }
}

// A number of two octets in network byte order.
fn two_octets(s: &[u8], at: usize) -> usize
    requires { at + 2 ≤ length s.now }
    ensures { result ≡ value_from 0 (take 2 (drop at s.now)) }
{
    usize::from(s[at]) * 256 + usize::from(s[at + 1])
}

// A record by its offsets: `owner_end`, where the owner ends and the type begins; type and class; where the data begins and where it ends.
#[derive(Clone, Copy)]
pub struct RecordAt {
    pub owner_end: usize,
    pub rtype: usize,
    pub class: usize,
    pub rdata: usize,
    pub next: usize,
}

// Reads the fields of the record that begins at offset `at`. Its data may hold anything: for a book that was checked.
pub fn read_record_fields(s: &[u8], at: usize) -> Option<RecordAt>
    ensures { result ≡ fields_at s.now at }
{
    let owner_end = read_name::name_end(s, at)?;
    if s.len() - owner_end < 10 {
        return None;
    }
    let rtype = two_octets(s, owner_end);
    let class = two_octets(s, owner_end + 2);
    let length = two_octets(s, owner_end + 8);
    let rdata = owner_end + 10;
    if s.len() - rdata < length {
        return None;
    }
    Some(RecordAt {
        owner_end,
        rtype,
        class,
        rdata,
        next: rdata + length,
    })
}

// Reads the record that begins at offset `at`, with data that is well formed for its type and class.
pub fn read_record(s: &[u8], at: usize) -> Option<RecordAt>
    ensures { result ≡ record_at s.now at }
{
    let r = read_record_fields(s, at)?;
    if !is_laid_out(r.rtype, r.class, &s[r.rdata..r.next]) {
        return None;
    }
    Some(r)
}

// Refusals 5, 6 and 7; and if there are none, whether there is an alias among the records.
pub fn check_records(b: &[u8]) -> Result<bool, Refusal>
    ensures { result ≡ layout_of b.now }
{
    if MAX_BOOK_OCTETS < b.len() {
        return Err(Refusal::BookTooLong);
    }
    let mut at = 0;
    let mut k = 0;
    let mut aliased = false;
    while at < b.len() {
        if k == MAX_RECORDS {
            return Err(Refusal::TooManyRecords);
        }
        let r = read_record(b, at).ok_or(Refusal::BadRecord(RecordNo(k)))?;
        aliased |= is_alias(r.rtype, r.class);
        at = r.next;
        k += 1;
    }
    Ok(aliased)
}
