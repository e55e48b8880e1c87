// Texts of octets: comparing without regard to letter case.
#![tactic(auto)]

ghost use Rattle.std.specs.Prelude.{◌≡◌, ◌&&◌, ◌≤◌, ◌<◌, eqb, length};
ghost use Rattle.spec_octets.specs.Octets.{lower, equal_ignoring_case};

// How many octets of a long text are compared at once.
const BLOCK: usize = 16;

// The one comparison of names and of tags: whole texts, octet by octet, letter case ignored. The lengths are compared first, then
// the last octets, then the rest.
pub fn same_ignoring_case(a: &[u8], b: &[u8]) -> bool
    ensures { result ≡ equal_ignoring_case a.now b.now }
{
    if a.len() != b.len() {
        return false;
    }
    let n = a.len();
    if n < BLOCK {
        return same_short(a, b);
    }
    let last = n - 2;
    let p = a[last];
    let q = b[last];
    // `same_blocks` is called in two places so that the compiler doesn't inline it here. This function stays short enough to be
    // inlined itself, and most calls are for short texts.
    if p == q {
        return same_blocks(a, b);
    }
    if text_ascii::to_lower(p) != text_ascii::to_lower(q) {
        return false;
    }
    same_blocks(a, b)
}

// Compares texts of equal length octet by octet: the octet before the last, or the only one, then all from the first on. In a name in
// wire form, which ends with a zero octet, the octet before the last is the last letter. A loop by hand: as a test and a `for`, this function is
// too long to be inlined in its callers.
fn same_short(a: &[u8], b: &[u8]) -> bool
    requires { length a.now ≡ length b.now }
    ensures { result ≡ equal_ignoring_case a.now b.now }
{
    let n = a.len();
    if n == 0 {
        return true;
    }
    let mut at = n.saturating_sub(2);
    let mut next: usize = 0;
    loop {
        if !same_octet(a[at], b[at]) {
            return false;
        }
        if next == n {
            return true;
        }
        at = next;
        next += 1;
    }
}

// Whether two octets are the same, letter case ignored. Most equal octets are of one case.
fn same_octet(x: u8, y: u8) -> bool
    ensures { result ≡ eqb (lower x) (lower y) }
{
    x == y || text_ascii::to_lower(x) == text_ascii::to_lower(y)
}

// Compares texts of equal length, at least a block long: the last block first, then block by block from the first octet on, until
// the last block is reached.
fn same_blocks(a: &[u8], b: &[u8]) -> bool
    requires { (length a.now ≡ length b.now) × (16 ≤ length a.now) }
    ensures { result ≡ equal_ignoring_case a.now b.now }
{
    let n = a.len();
    let tail = n - BLOCK;
    if !same_at_once(&a[tail..n], &b[tail..n]) {
        return false;
    }
    // A loop by hand, for the same reason; `step_by` would count to 16 for each block, too.
    let mut from: usize = 0;
    while from < tail {
        let to = from + BLOCK;
        if !same_at_once(&a[from..to], &b[from..to]) {
            return false;
        }
        from += BLOCK;
    }
    true
}

// Compares texts of equal length and does not stop at a difference, so that the compiler can use vector instructions for a block.
fn same_at_once(a: &[u8], b: &[u8]) -> bool
    requires { length a.now ≡ length b.now }
    ensures { result ≡ equal_ignoring_case a.now b.now }
{
    let mut same = true;
    for (p, q) in a.iter().zip(b) {
        same &= text_ascii::to_lower(*p) == text_ascii::to_lower(*q);
    }
    same
}
