// The list of methods in the value of a validationmethods parameter (RFC 8657 section 4).
#![tactic(auto)]

ghost use Rattle.std.specs.Prelude.{◌≡◌};
ghost use Rattle.read_methods.specs.Methods.{names_method_in};

// Whether the method is one of the items between the commas, and no item is empty.
pub fn names_method(value: &[u8], method: &[u8]) -> bool
    ensures { result ≡ names_method_in method.now value.now }
{
    let mut found: bool = false;
    let mut at: usize = 0;
    loop {
        let e = text_labels::piece_end(value, at, b',');
        let item = &value[at..e];
        if item.len() == 0 {
            return false;
        }
        if text_equal::is_same(method, item) {
            found = true;
        }
        if value.len() <= e {
            return found;
        }
        at = e + 1;
    }
}
