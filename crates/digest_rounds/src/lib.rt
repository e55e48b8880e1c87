// The rounds (FIPS 180-4 sections 6.2.2 and 6.4.2, steps 2 to 4).
#![tactic(auto)]

ghost use Rattle.std.specs.Prelude.{◌≡◌, map};
ghost use Rattle.spec_digest.specs.Family.{temporary1, temporary2, round, rounds, added};
ghost use Rattle.digest_rounds.specs.States.{state};

use digest_words::Word;

// Eight words: a hash value, or the working variables.
#[derive(Clone, Copy)]
pub struct State<W> {
    pub a: W,
    pub b: W,
    pub c: W,
    pub d: W,
    pub e: W,
    pub f: W,
    pub g: W,
    pub h: W,
}

// T1, from the constant and the word of the round.
#[tactic(auto, unfolding(spec_digest::specs::Family::temporary1))]
fn first_temporary<W: Word>(s: State<W>, k: W, x: W) -> W
    ensures { W.number result ≡ temporary1 W.member (state W.number s) (W.number k) (W.number x) }
{
    let sigma = s.h.plus(s.e.big_sigma1());
    let chosen = sigma.plus(s.e.ch(s.f, s.g));
    chosen.plus(k).plus(x)
}

#[tactic(auto, unfolding(spec_digest::specs::Family::temporary2))]
fn second_temporary<W: Word>(s: State<W>) -> W
    ensures { W.number result ≡ temporary2 W.member (state W.number s) }
{
    s.a.big_sigma0().plus(s.a.maj(s.b, s.c))
}

#[tactic(auto, unfolding(spec_digest::specs::Family::round, spec_digest::specs::Family::moved))]
fn one_round<W: Word>(s: State<W>, k: W, x: W) -> State<W>
    ensures { state W.number result ≡ round W.member (state W.number s) (W.number k) (W.number x) }
{
    let t1 = first_temporary(s, k, x);
    let t2 = second_temporary(s);
    State {
        a: t1.plus(t2),
        b: s.a,
        c: s.b,
        d: s.c,
        e: s.d.plus(t1),
        f: s.e,
        g: s.f,
        h: s.g,
    }
}

// The rounds, one for each constant and word.
pub fn all_rounds<W: Word>(start: State<W>, words: &[W]) -> State<W>
    ensures { state W.number result ≡ rounds W.member (state W.number start) W.member.constants (map W.number words.now) }
{
    let constants = W::constants();
    let mut s = start;
    for (k, x) in constants.iter().zip(words) {
        s = one_round(s, *k, *x);
    }
    s
}

// The sum, word by word.
#[tactic(auto, unfolding(spec_digest::specs::Family::added))]
pub fn add_states<W: Word>(s: State<W>, t: State<W>) -> State<W>
    ensures { state W.number result ≡ added W.member (state W.number s) (state W.number t) }
{
    State {
        a: s.a.plus(t.a),
        b: s.b.plus(t.b),
        c: s.c.plus(t.c),
        d: s.d.plus(t.d),
        e: s.e.plus(t.e),
        f: s.f.plus(t.f),
        g: s.g.plus(t.g),
        h: s.h.plus(t.h),
    }
}
