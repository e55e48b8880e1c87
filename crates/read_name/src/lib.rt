// Domain names in wire form (RFC 1035 section 3.1): where one ends, and the way up to its parent.
#![tactic(auto)]

ghost use Rattle.std.specs.Prelude.{◌≡◌};
ghost use Rattle.read_name.specs.Places.{name_end, parent_place};

use spec_limits::{MAX_LABEL_OCTETS, MAX_NAME_OCTETS};

// The offset after the closing zero of a name, or a fault.
pub fn name_end(s: &[u8], at: usize) -> Option<usize>
    ensures { result ≡ name_end s.now at }
{
    let mut p = at;
    while p < s.len() {
        let n = usize::from(s[p]);
        let next = p + 1;
        if MAX_NAME_OCTETS < next - at {
            return None;
        }
        if n == 0 {
            return Some(next);
        }
        if MAX_LABEL_OCTETS < n {
            return None;
        }
        p = next + n;
    }
    // No closing zero, or a label longer than the remaining octets.
    None
}

// The offset of a label in a name. The search for the relevant set goes up the DNS tree label by label (the requirements' "climb").
#[derive(Clone, Copy)]
pub struct Climb {
    pub at: usize,
}

impl Climb {
    // Removes one label and returns the new offset; the same offset if no complete label is there.
    pub fn up(self, name: &[u8]) -> Climb
        ensures { result.at ≡ parent_place name.now self.at }
    {
        if name.len() <= self.at {
            return self;
        }
        let label = usize::from(name[self.at]);
        let next = self.at + 1;
        if label == 0 || name.len() - next < label {
            return self;
        }
        Climb { at: next + label }
    }
}
