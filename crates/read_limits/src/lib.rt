// The limits that the parameters of an issue value set (RFC 8657): the account, and the validation methods.
#![tactic(auto)]

ghost use Rattle.std.specs.Prelude.{◌≡◌};
ghost use Rattle.spec_value.specs.Parameters.{parameter_in};
ghost use Rattle.spec_applicant.specs.Admission.{admits};
ghost use Rattle.read_parameters.specs.Parameters.{parameters_behind};
ghost use Rattle.read_limits.specs.Limits.{limit_step};
ghost use Rattle.spec_applicant.specs.Applicants.{texts};

use spec_applicant::Applicant;

// Which of the two limits the parameters so far have set.
#[derive(Clone, Copy)]
pub struct Seen {
    pub account: bool,
    pub methods: bool,
}

// One parameter, after those that have set the limits seen so far: the limits seen with it. None if it admits nobody: its limit was set
// before, or is not met.
fn limit_step(s: &[u8], seen: Seen, applicant: Applicant) -> Option<Seen>
    ensures { result ≡ limit_step (texts applicant.entry) seen (parameter_in s.now) }
{
    let tag = read_parts::parameter_tag(s);
    if text_compare::same_ignoring_case(tag, b"accounturi") {
        let met = !seen.account
            && text_equal::is_same(applicant.account, read_parts::parameter_value(s));
        met.then_some(Seen {
            account: true,
            ..seen
        })
    } else if text_compare::same_ignoring_case(tag, b"validationmethods") {
        let met = !seen.methods
            && read_methods::names_method(read_parts::parameter_value(s), applicant.method);
        met.then_some(Seen {
            methods: true,
            ..seen
        })
    } else {
        Some(seen)
    }
}

// Whether the parameters in the octets after the first semicolon of a value admit an applicant.
pub fn limits_met(s: &[u8], applicant: Applicant) -> bool
    ensures { result ≡ admits (texts applicant.entry) (parameters_behind s.now) }
{
    let mut seen = Seen {
        account: false,
        methods: false,
    };
    let mut at = 0;
    loop {
        let e = text_labels::piece_end(s, at, b';');
        let Some(next) = limit_step(&s[at..e], seen, applicant) else {
            return false;
        };
        if s.len() <= e {
            return true;
        }
        seen = next;
        at = e + 1;
    }
}
