// The message schedule (FIPS 180-4 sections 6.2.2 and 6.4.2, step 1).
#![tactic(auto)]

ghost use Rattle.std.specs.Prelude.{◌≡◌, map};
ghost use Rattle.spec_digest.specs.Family.{next_word, extended};

use digest_words::Word;

// A word, from those 16, 15, 7 and 2 places before it.
#[tactic(auto, unfolding(spec_digest::specs::Family::next_word))]
pub fn next_word<W: Word>(before16: W, before15: W, before7: W, before2: W) -> W
    ensures { W.number result ≡ next_word W.member (W.number before16) (W.number before15) (W.number before7) (W.number before2) }
{
    let near = before2.small_sigma1().plus(before7);
    let far = near.plus(before15.small_sigma0());
    far.plus(before16)
}

// Extends the 16 words at the front until the slice is full. A slice with a word for each round becomes the message schedule.
pub fn extend<W: Word>(words: &mut [W])
    ensures { map W.number words.new ≡ extended W.member (map W.number words.old) }
{
    for t in 16..words.len() {
        words[t] = next_word(words[t - 16], words[t - 15], words[t - 7], words[t - 2]);
    }
}
