// SHA-256 (FIPS 180-4) of a message that with its padding is one block: one of at most 55 bytes.

#![tactic(auto)]

ghost use Rattle.std.specs.Prelude.{◌≡◌, ◌≤◌, length};
ghost use Rattle.sha256.specs.Sha256 as S;

use crate::hash::hash;

pub mod function; // function.rt: the functions of words that a round and the message schedule use
pub mod block; // block.rt: a padded message as sixteen words
pub mod hash; // hash.rt: the message schedule, the rounds and the hash value

// The digest: of each word of the hash value the four bytes, highest first.
pub fn digest(m: &[u8]) -> [u8; 32]
    requires { length m.now ≤ 55 }
    ensures { result ≡ S.sha256 m.now }
{
    let h = hash(m);
    std::array::from_fn(|i| h[i / 4].to_be_bytes()[i % 4])
}
