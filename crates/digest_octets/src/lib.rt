// Numbers written as octets, the high octet first.
#![tactic(auto)]

ghost use Rattle.std.specs.Prelude.{◌≡◌};
ghost use Rattle.spec_octets.specs.Reader.{in_octets};
ghost use Rattle.spec_octets.specs.Buffer.{filled, filled_length};

// Writes x in k octets at the start of the buffer, and returns k. If they don't fit, nothing is written and 0 is returned.
pub fn put_number(x: u64, k: usize, out: &mut [u8]) -> usize
    ensures answer { result ≡ filled_length (in_octets k x) out.old }
    ensures octets { out.new ≡ filled (in_octets k x) out.old }
{
    if out.len() < k {
        return 0;
    }
    let mut left = x;
    for i in (0..k).rev() {
        out[i] = (left % 256) as u8;
        left /= 256;
    }
    k
}
