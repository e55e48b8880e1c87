// The words of SHA-256 and of SHA-512: their functions, and the constants of the rounds.
#![tactic(auto)]

ghost use Rattle.std.specs.Prelude.{◌≡◌, ◌≤◌, ℕ, map};
ghost use Rattle.spec_digest.specs.Words.{choose, majority, plus};
ghost use Rattle.spec_digest.specs.Family.{Member, width, big_sigma0, big_sigma1, small_sigma0, small_sigma1};
ghost use Rattle.digest_words.specs.Joined.{joined_in};

mod words256;
mod words512;

// A word of a member of the family: its functions, and the constants of the rounds. `ch` and `maj` stand in each impl: for one body the
// trait would need a ghost member for each operator.
pub trait Word: Copy + 'static {
    ghost member: { Member };

    // The word as a number.
    ghost number: { Self → ℕ };

    // The number of its octets.
    const OCTETS: usize;

    ghost OCTETS: { ℕ };

    // The word of these octets, the high octet first; 0 if they are not as many as a word has.
    fn joined(octets: &[u8]) -> Self
        ensures { number result ≡ joined_in member octets.now };

    fn ch(self, y: Self, z: Self) -> Self
        ensures { number result ≡ choose (width member) (number self) (number y) (number z) };

    fn maj(self, y: Self, z: Self) -> Self
        ensures { number result ≡ majority (number self) (number y) (number z) };

    fn big_sigma0(self) -> Self
        ensures { number result ≡ big_sigma0 member (number self) };

    fn big_sigma1(self) -> Self
        ensures { number result ≡ big_sigma1 member (number self) };

    fn small_sigma0(self) -> Self
        ensures { number result ≡ small_sigma0 member (number self) };

    fn small_sigma1(self) -> Self
        ensures { number result ≡ small_sigma1 member (number self) };

    // The sum, which wraps.
    fn plus(self, y: Self) -> Self
        ensures { number result ≡ plus (width member) (number self) (number y) };

    // A constant for each round.
    fn constants() -> &'static [Self]
        ensures { map number result.now ≡ member.constants };

    ghost octets_of_member: { OCTETS ≡ member.word_octets };

    ghost few_octets: { (1 ≤ OCTETS) × (OCTETS ≤ 8) };
}
