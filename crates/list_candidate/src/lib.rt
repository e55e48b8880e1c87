// Candidates: issuer names that may get onto the list. Each is kept as its offset and its length in the book. Every function accepts any
// numbers: reading past the end of the array gives 0, and a candidate without room is not added.
#![tactic(auto)]

ghost use Rattle.std.specs.Prelude.{◌≡◌};
ghost use Rattle.list_places.specs.Candidates.{candidate_at, is_candidate, pushed};

use list_places::Grant;

// The name of candidate i, as the book spells it.
pub fn candidate_at<'a>(book: &'a [u8], names: &[u16], i: usize) -> &'a [u8]
    ensures { result.now ≡ candidate_at book.now names.now i }
{
    if names.len() / 2 <= i {
        return &book[..0];
    }
    let at = 2 * i;
    let n = names[at + 1] as usize;
    book_table::octets_at(book, names[at] as usize, n)
}

// Whether a name is one of the first `count` candidates, letter case ignored.
pub fn is_candidate(book: &[u8], names: &[u16], count: usize, x: &[u8]) -> bool
    ensures { result ≡ is_candidate book.now names.now count x.now }
{
    for i in 0..count {
        if text_compare::same_ignoring_case(x, candidate_at(book, names, i)) {
            return true;
        }
    }
    false
}

// Adds a candidate, and returns how many there are now.
pub fn push_candidate(names: &mut [u16], count: usize, g: Grant) -> usize
    ensures answer { result ≡ (pushed (record { count = count; names = names.old }) g).count }
    ensures numbers { names.new ≡ (pushed (record { count = count; names = names.old }) g).names }
{
    if names.len() / 2 <= count {
        return count;
    }
    let at = 2 * count;
    names[at] = g.at;
    names[at + 1] = g.octets;
    count + 1
}
