// An answer packed into one number of 64 bits, so that a call needs no output parameter for it.
#![tactic(auto)]

ghost use Rattle.std.specs.Prelude.{◌≡◌};
ghost use Rattle.spec_packed.specs.Packed.{packed, packed_refusal};

use spec_refusal::{Refusal, number_of, place_of};

// Bits 0 to 7 hold the number, and three fields follow: a in bits 8 to 31, b in 32 to 47, c in 48 to 63.
#[tactic(auto, unfolding(crate::specs::Packed::packed))]
pub fn pack(number: u64, a: u64, b: u64, c: u64) -> u64
    ensures { result ≡ packed number a b c }
{
    number % 256 + a % 16777216 * 256 + b % 65536 * 4294967296 + c % 65536 * 281474976710656
}

// A refusal: its number, and its place in a.
#[tactic(auto, unfolding(crate::specs::Packed::packed_refusal))]
pub fn pack_refusal(r: Refusal) -> u64
    ensures { result ≡ packed_refusal r }
{
    pack(number_of(r), place_of(r) as u64, 0, 0)
}
