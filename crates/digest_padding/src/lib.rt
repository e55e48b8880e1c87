// The end of a padded message (FIPS 180-4 section 5.1), for both widths of a word.
#![tactic(auto)]

ghost use Rattle.std.specs.Prelude.{◌≡◌, ◌∷◌, ◌+◌, ◌*◌, ◌%◌, ◌<◌, ◌≤◌, length, replicate};
ghost use Rattle.spec_octets.specs.Reader.{in_octets};
ghost use Rattle.spec_octets.specs.Buffer.{Put, filled, filled_length};
ghost use Rattle.spec_digest.specs.Padding.{zeros, padding};
ghost use Rattle.digest_padding.specs.Tails.{tail};

use digest_words::Word;

// What is left of l octets after their whole blocks.
fn remainder<W: Word>(l: usize) -> usize
    ensures { (result ≡ l % (16 * W.OCTETS)) × (result < 16 * W.OCTETS) × (result ≤ l) }
{
    l % (16 * W::OCTETS)
}

// The number of zeros in the padding of a message of l octets.
fn count_zeros<W: Word>(l: usize) -> usize
    ensures { (result ≡ zeros W.OCTETS l) × (result ≤ 127) }
{
    let rest = remainder::<W>(l);
    let field = remainder::<W>(rest + 2 * W::OCTETS);
    16 * W::OCTETS - 1 - field
}

// Writes the octet 128, which has the 1 bit, and the zeros.
fn put_marker(count: usize, out: &mut [u8]) -> usize
    requires { (1 + count ≤ length out.old) × (count ≤ 127) }
    ensures { Put (128 ∷ replicate count 0) out.old out.new result }
{
    out[0] = 128;
    out[1..1 + count].fill(0);
    1 + count
}

// Writes the number of bits of l octets as a number of k octets. The last octet is apart, so that the product can't overflow.
fn put_length(l: usize, k: usize, out: &mut [u8])
    requires { (1 ≤ k) × (k ≤ length out.old) }
    ensures { Put (in_octets k (8 * l)) out.old out.new k }
{
    let last = k - 1;
    out[last] = (l % 32 * 8) as u8;
    digest_octets::put_number((l / 32) as u64, last, out);
}

// Writes the padding of a message of l octets. `count` is the number of its zeros.
fn put_padding<W: Word>(l: usize, count: usize, out: &mut [u8]) -> usize
    requires zeros { (count ≡ zeros W.OCTETS l) × (count ≤ 127) }
    requires room { length (padding W.OCTETS l) ≤ length out.old }
    ensures { Put (padding W.OCTETS l) out.old out.new result }
{
    let w = put_marker(count, out);
    let k = 2 * W::OCTETS;
    put_length(l, k, &mut out[w..]);
    w + k
}

// Writes the last octets of a message, which follow its whole blocks, and its padding.
fn put_parts<W: Word>(s: &[u8], rest: usize, count: usize, out: &mut [u8]) -> usize
    requires rest { (rest ≡ length s.now % (16 * W.OCTETS)) × (rest ≤ length s.now) }
    requires zeros { (count ≡ zeros W.OCTETS (length s.now)) × (count ≤ 127) }
    requires room { rest + 1 + count + 2 * W.OCTETS ≤ length out.old }
    ensures { Put (tail W.OCTETS s.now) out.old out.new result }
{
    let from = s.len() - rest;
    let w = text_buffer::put_octets(&s[from..], out);
    w + put_padding::<W>(s.len(), count, &mut out[w..])
}

// Writes what the padded message has after the whole blocks of the message, and returns how many octets: one block or two. If they don't
// fit, nothing is written and 0 is returned.
pub fn put_tail<W: Word>(s: &[u8], out: &mut [u8]) -> usize
    ensures answer { result ≡ filled_length (tail W.member.word_octets s.now) out.old }
    ensures octets { out.new ≡ filled (tail W.member.word_octets s.now) out.old }
{
    let rest = remainder::<W>(s.len());
    let count = count_zeros::<W>(s.len());
    if out.len() < rest + 1 + count + 2 * W::OCTETS {
        return 0;
    }
    put_parts::<W>(s, rest, count, out)
}
