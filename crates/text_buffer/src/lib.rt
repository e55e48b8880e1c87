// Writes octets at the start of the caller's buffer and returns how many. If they don't all fit, nothing is written and 0 is returned.
#![tactic(auto)]

ghost use Rattle.std.specs.Prelude.{◌≡◌};
ghost use Rattle.spec_octets.specs.Octets.{lowered};
ghost use Rattle.spec_octets.specs.Buffer.{filled, filled_length};

// Writes the octets unchanged.
#[tactic(auto, unfolding(spec_octets::specs::Buffer::filled, spec_octets::specs::Buffer::filled_length))]
pub fn put_octets(s: &[u8], out: &mut [u8]) -> usize
    ensures answer { result ≡ filled_length s.now out.old }
    ensures octets { out.new ≡ filled s.now out.old }
{
    if out.len() < s.len() {
        return 0;
    }
    // Octet by octet: `copy_from_slice` would make the library need `memmove` from a C library.
    for i in 0..s.len() {
        out[i] = s[i];
    }
    s.len()
}

// Writes the octets in lower case.
#[tactic(auto, unfolding(spec_octets::specs::Buffer::filled, spec_octets::specs::Buffer::filled_length))]
pub fn put_lowered(text: &[u8], out: &mut [u8]) -> usize
    ensures answer { result ≡ filled_length (lowered text.now) out.old }
    ensures octets { out.new ≡ filled (lowered text.now) out.old }
{
    let count = put_octets(text, out);
    out[..count].make_ascii_lowercase();
    count
}
