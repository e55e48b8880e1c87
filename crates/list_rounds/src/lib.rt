// The rounds of the candidates. A candidate that a further set grants is moved on to the next round.
#![tactic(auto)]

ghost use Rattle.std.specs.Prelude.{◌≡◌};
ghost use Rattle.list_places.specs.Rounds.{marked};

// Moves the candidates of round t with the name x, letter case ignored, on to the next round.
pub fn mark(book: &[u8], names: &[u16], count: usize, x: &[u8], rounds: &mut [u16], t: usize)
    ensures { rounds.new ≡ marked book.now names.now count x.now t rounds.old }
{
    let next = (t % 65536 + 1) % 65536;
    for i in 0..count.min(rounds.len()) {
        let round = rounds[i] as usize;
        if round == t
            && text_compare::same_ignoring_case(list_candidate::candidate_at(book, names, i), x)
        {
            rounds[i] = next as u16;
        }
    }
}
