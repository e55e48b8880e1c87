// The hash computation over blocks (FIPS 180-4 sections 6.2.2 and 6.4.2).
#![tactic(auto)]

ghost use Rattle.std.specs.Prelude.{◌≡◌, ◌*◌, ◌≤◌, length, map, take};
ghost use Rattle.spec_digest.specs.Padding.{block_words};
ghost use Rattle.spec_digest.specs.Family.{absorbed};
ghost use Rattle.spec_digest.specs.Members.{sha256, sha512};
ghost use Rattle.digest_rounds.specs.States.{state};
ghost use Rattle.digest_blocks.specs.Compressed.{compressed_by};

use digest_rounds::State;
use digest_words::Word;

// Loads the 16 words of a block.
fn load<W: Word>(block: &[u8], words: &mut [W])
    requires { (length block.now ≡ 16 * W.member.word_octets) × (16 ≤ length words.old) }
    ensures { take 16 (map W.number words.new) ≡ block_words W.member.word_octets block.now }
{
    for t in 0..16 {
        let at = t * W::OCTETS;
        words[t] = W::joined(&block[at..at + W::OCTETS]);
    }
}

// The hash value after a block; octets that are no block leave it as it is. `words` has a place for each word of the message schedule.
fn compress_in<W: Word>(v: State<W>, block: &[u8], words: &mut [W]) -> State<W>
    requires { (length words.old ≡ length W.member.constants) × (16 ≤ length words.old) }
    ensures { state W.number result ≡ compressed_by W.member (state W.number v) block.now }
{
    if block.len() != 16 * W::OCTETS {
        return v;
    }
    load(block, words);
    digest_schedule::extend(words);
    digest_rounds::add_states(v, digest_rounds::all_rounds(v, words))
}

// A word with the array for its message schedule. It stands in each impl: the size of an array of a type parameter is not proved to fit.
pub trait BlockWord: Word {
    // The hash value after a block; octets that are no block leave it as it is.
    fn compress_block(v: State<Self>, block: &[u8]) -> State<Self>
        ensures { state Self.number result ≡ compressed_by Self.member (state Self.number v) block.now };
}

impl BlockWord for u32 {
    fn compress_block(v: State<u32>, block: &[u8]) -> State<u32>
        ensures { state (λ x. x) result ≡ compressed_by sha256 (state (λ x. x) v) block.now }
    {
        let mut words = [0; 64];
        compress_in(v, block, &mut words)
    }
}

impl BlockWord for u64 {
    fn compress_block(v: State<u64>, block: &[u8]) -> State<u64>
        ensures { state (λ x. x) result ≡ compressed_by sha512 (state (λ x. x) v) block.now }
    {
        let mut words = [0; 80];
        compress_in(v, block, &mut words)
    }
}

// The hash value after the whole blocks of s.
pub fn absorb<W: BlockWord>(start: State<W>, s: &[u8]) -> State<W>
    ensures { state W.number result ≡ absorbed W.member (state W.number start) s.now }
{
    let mut v = start;
    for block in s.chunks_exact(16 * W::OCTETS) {
        v = W::compress_block(v, block);
    }
    v
}
