// A judgement as the word that a call returns.
#![tactic(auto)]

ghost use Rattle.std.specs.Prelude.{◌≡◌};
ghost use Rattle.spec_packed.specs.Packed.{packed};
ghost use Rattle.spec_answers.specs.Answers.{packed_judgement};

use spec_rule::{Denial, Judgement};

// A verdict with the numbers of its denial.
fn pack_denial(number: u64, d: Denial) -> u64
    ensures { result ≡ packed number d.name.0 d.rr.0 d.up.0 }
{
    spec_packed::pack(number, d.name.0 as u64, d.rr.0 as u64, d.up.0 as u64)
}

// 0: permitted. 20, 21 and 22: name number in a, record number in b, labels taken off in c. A refusal: its place (spec_refusal) in a.
#[tactic(auto, unfolding(spec_answers::specs::Answers::packed_judgement, spec_rule::specs::Calls::judgement_code, spec_packed::specs::Packed::packed_refusal))]
pub fn pack_judgement(j: Judgement) -> u64
    ensures { result ≡ packed_judgement j }
{
    match j {
        Judgement::Permitted => 0,
        Judgement::UnknownCritical(d) => pack_denial(20, d),
        Judgement::NotGranted(d) => pack_denial(21, d),
        Judgement::TooManyAliases(d) => pack_denial(22, d),
        Judgement::Refused(r) => spec_packed::pack_refusal(r),
    }
}
