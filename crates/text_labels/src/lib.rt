// Labels: testing one, finding the end of a piece, and labels joined by dots, as in issuer domain names and the names in issue values.
#![tactic(auto)]

ghost use Rattle.std.specs.Prelude.{◌≡◌};
ghost use Rattle.spec_octets.specs.Label.{is_label};
ghost use Rattle.text_labels.specs.Places.{piece_end};
ghost use Rattle.text_labels.specs.DottedLabels.{is_label_within, are_labels};

use text_classes::Class;

// Whether a text is a label: letters, digits and hyphens, with no hyphen at either end. The empty text is none.
pub fn is_label(l: &[u8]) -> bool
    ensures { result ≡ is_label l.now }
{
    if l.is_empty() || l[0] == b'-' || l[l.len() - 1] == b'-' {
        return false;
    }
    text_classes::all_of(l, Class::LetterDigitHyphen)
}

// The offset where the piece that begins at offset `at` ends: at the next octet c, or at the end of the text.
pub fn piece_end(s: &[u8], at: usize, c: u8) -> usize
    ensures { result ≡ piece_end c s.now at }
{
    // With this test before it the loop keeps one counter; `at.max(s.len())` behind the loop made the compiler keep four.
    if s.len() <= at {
        return at;
    }
    for e in at..s.len() {
        if s[e] == c {
            return e;
        }
    }
    s.len()
}

// Whether l is a label of at most `longest` octets.
#[tactic(auto, unfolding(crate::specs::DottedLabels::is_label_within))]
fn is_label_within(l: &[u8], longest: usize) -> bool
    ensures { result ≡ is_label_within longest l.now }
{
    l.len() <= longest && is_label(l)
}

// Whether a text is labels of at most `longest` octets each, joined by single dots.
pub fn are_labels(s: &[u8], longest: usize) -> bool
    ensures { result ≡ are_labels longest s.now }
{
    let mut at: usize = 0;
    loop {
        let e = piece_end(s, at, b'.');
        if !is_label_within(&s[at..e], longest) {
            return false; // a closing dot leaves an empty label here
        }
        if s.len() <= e {
            return true;
        }
        at = e + 1;
    }
}
