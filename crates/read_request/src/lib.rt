// Requests: reading the requested name at an offset, and checking a whole request.
#![tactic(auto)]

ghost use Rattle.std.specs.Prelude.{◌≡◌, not, ◌&&◌};
ghost use Rattle.spec_refusal.specs.Checks.{checked};
ghost use Rattle.spec_octets.specs.Lists.{all, is_empty};
ghost use Rattle.spec_octets.specs.Label.{is_host_label};
ghost use Rattle.spec_name.specs.Names.{Name, wire, GoodName};
ghost use Rattle.spec_request.specs.Request.{is_wildcard, request_refusal};
ghost use Rattle.read_request.specs.Places.{requested_at};

use read_name::Climb;
use spec_limits::{MAX_NAMES, MAX_REQUEST_OCTETS};
use spec_refusal::{NameNo, Refusal};

// A requested name X or *.X: the offset of X, and the offset after the closing zero.
#[derive(Clone, Copy)]
pub struct Requested {
    pub wildcard: bool,
    pub base: usize,
    pub next: usize,
}

// Whether the first label of a name is an asterisk.
fn is_wildcard(name: &[u8]) -> bool
    ensures { (n : Name) → name.now ≡ wire n → result ≡ is_wildcard n }
{
    name.starts_with(&[1, b'*'])
}

// Whether a name is not the root, and its labels hold letters, digits and inner hyphens.
fn are_host_labels(name: &[u8]) -> bool
    ensures { (n : Name) → GoodName n → name.now ≡ wire n → result ≡ not (is_empty n) && all is_host_label n }
{
    let mut at = 0;
    loop {
        let next = Climb { at }.up(name).at;
        // The closing zero.
        if next <= at {
            return 0 < at;
        }
        if !text_labels::is_label(&name[at + 1..next]) {
            return false;
        }
        at = next;
    }
}

// Reads the requested name that begins at offset `at`.
pub fn requested_name(s: &[u8], at: usize) -> Option<Requested>
    ensures { result ≡ requested_at s.now at }
{
    let next = read_name::name_end(s, at)?;
    let wildcard = is_wildcard(&s[at..next]);
    let base = if wildcard { at + 2 } else { at };
    if !are_host_labels(&s[base..next]) {
        return None;
    }
    Some(Requested {
        wildcard,
        base,
        next,
    })
}

// Refusals 1, 2 and 3.
pub fn check_request(s: &[u8]) -> Result<(), Refusal>
    ensures { result ≡ checked (request_refusal s.now) }
{
    if MAX_REQUEST_OCTETS < s.len() {
        return Err(Refusal::RequestTooLong);
    }
    if s.is_empty() {
        return Err(Refusal::BadName(NameNo(0)));
    }
    let mut at = 0;
    let mut k = 0;
    while at < s.len() {
        if k == MAX_NAMES {
            return Err(Refusal::TooManyNames);
        }
        let n = requested_name(s, at).ok_or(Refusal::BadName(NameNo(k)))?;
        at = n.next;
        k += 1;
    }
    Ok(())
}
