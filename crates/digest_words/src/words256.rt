// The words of SHA-256 (FIPS 180-4 sections 4.1.2 and 4.2.2).
#![tactic(auto, unfolding(spec_digest::specs::Words::choose, spec_digest::specs::Words::majority, spec_digest::specs::Words::plus, spec_digest::specs::Words::complement, spec_digest::specs::Words::rotate_right, spec_digest::specs::Words::rotations, spec_digest::specs::Words::rotations_and_shift, spec_digest::specs::Family::big_sigma0, spec_digest::specs::Family::big_sigma1, spec_digest::specs::Family::small_sigma0, spec_digest::specs::Family::small_sigma1, spec_digest::specs::Members::sha256, spec_digest::specs::Members::constants256, crate::specs::Joined::joined_in))]

ghost use Rattle.std.specs.Prelude.{refl};
ghost use Rattle.std.proofs.Common.{lit≤};
ghost use Rattle.spec_digest.specs.Members.{sha256};

use crate::Word;

const CONSTANTS: [u32; 64] = [
    0x428a2f98, 0x71374491, 0xb5c0fbcf, 0xe9b5dba5, 0x3956c25b, 0x59f111f1, 0x923f82a4, 0xab1c5ed5,
    0xd807aa98, 0x12835b01, 0x243185be, 0x550c7dc3, 0x72be5d74, 0x80deb1fe, 0x9bdc06a7, 0xc19bf174,
    0xe49b69c1, 0xefbe4786, 0x0fc19dc6, 0x240ca1cc, 0x2de92c6f, 0x4a7484aa, 0x5cb0a9dc, 0x76f988da,
    0x983e5152, 0xa831c66d, 0xb00327c8, 0xbf597fc7, 0xc6e00bf3, 0xd5a79147, 0x06ca6351, 0x14292967,
    0x27b70a85, 0x2e1b2138, 0x4d2c6dfc, 0x53380d13, 0x650a7354, 0x766a0abb, 0x81c2c92e, 0x92722c85,
    0xa2bfe8a1, 0xa81a664b, 0xc24b8b70, 0xc76c51a3, 0xd192e819, 0xd6990624, 0xf40e3585, 0x106aa070,
    0x19a4c116, 0x1e376c08, 0x2748774c, 0x34b0bcb5, 0x391c0cb3, 0x4ed8aa4a, 0x5b9cca4f, 0x682e6ff3,
    0x748f82ee, 0x78a5636f, 0x84c87814, 0x8cc70208, 0x90befffa, 0xa4506ceb, 0xbef9a3f7, 0xc67178f2,
];

impl Word for u32 {
    ghost member = { sha256 };

    ghost number = { λ x. x };

    const OCTETS: usize = 4;

    ghost OCTETS = { 4 };

    fn joined(octets: &[u8]) -> u32 {
        match octets {
            [a, b, c, d] => u32::from_be_bytes([*a, *b, *c, *d]),
            _ => 0,
        }
    }

    fn ch(self, y: u32, z: u32) -> u32 {
        (self & y) ^ (!self & z)
    }

    fn maj(self, y: u32, z: u32) -> u32 {
        (self & y) ^ (self & z) ^ (y & z)
    }

    fn big_sigma0(self) -> u32 {
        self.rotate_right(2) ^ self.rotate_right(13) ^ self.rotate_right(22)
    }

    fn big_sigma1(self) -> u32 {
        self.rotate_right(6) ^ self.rotate_right(11) ^ self.rotate_right(25)
    }

    fn small_sigma0(self) -> u32 {
        self.rotate_right(7) ^ self.rotate_right(18) ^ (self >> 3)
    }

    fn small_sigma1(self) -> u32 {
        self.rotate_right(17) ^ self.rotate_right(19) ^ (self >> 10)
    }

    fn plus(self, y: u32) -> u32 {
        self.wrapping_add(y)
    }

    fn constants() -> &'static [u32] {
        &CONSTANTS
    }

    ghost octets_of_member = { unfold sha256 in refl };

    ghost few_octets = { (lit≤ tt, lit≤ tt) };
}
