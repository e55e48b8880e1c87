// The key of an owner: a hash of its octets, below `MAX_RECORDS`. Names that are equal, letter case ignored, have the same key.
#![tactic(auto)]

ghost use Rattle.std.specs.Prelude.{◌≡◌, ◌<◌};
ghost use Rattle.book_places.specs.Keys.{mixed, key_of};

use spec_limits::MAX_RECORDS;

// A 16-bit hash of a text, started from h; letter case is ignored.
fn mixed(h: usize, s: &[u8]) -> usize
    requires { h < 65536 }
    ensures { (result ≡ mixed h s.now) × (result < 65536) }
{
    let mut m = h;
    for octet in s {
        m = (31 * m + text_ascii::to_lower(*octet) as usize) % 65536;
    }
    m
}

// The hash of the length, the first ten octets and the last six octets.
pub fn key_of(x: &[u8]) -> usize
    ensures { result ≡ key_of x.now }
{
    let n = x.len();
    let first = n.min(10);
    let last = n.saturating_sub(6);
    mixed(mixed(n % 65536, &x[..first]), &x[last..]) % MAX_RECORDS
}
