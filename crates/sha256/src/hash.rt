// The computation of the hash value (FIPS 180-4, 6.2.2) of one block.
ghost use Rattle.std.specs.Prelude.{◌≡◌, ◌≤◌, length, take};
ghost use Rattle.sha256.specs.Sha256 as S;

use crate::block::block_words;
use crate::function::{schedule_word, temp1, temp2};

// K.
static CONSTANTS: [u32; 64] = [
    0x428a2f98, 0x71374491, 0xb5c0fbcf, 0xe9b5dba5, 0x3956c25b, 0x59f111f1, 0x923f82a4, 0xab1c5ed5,
    0xd807aa98, 0x12835b01, 0x243185be, 0x550c7dc3, 0x72be5d74, 0x80deb1fe, 0x9bdc06a7, 0xc19bf174,
    0xe49b69c1, 0xefbe4786, 0x0fc19dc6, 0x240ca1cc, 0x2de92c6f, 0x4a7484aa, 0x5cb0a9dc, 0x76f988da,
    0x983e5152, 0xa831c66d, 0xb00327c8, 0xbf597fc7, 0xc6e00bf3, 0xd5a79147, 0x06ca6351, 0x14292967,
    0x27b70a85, 0x2e1b2138, 0x4d2c6dfc, 0x53380d13, 0x650a7354, 0x766a0abb, 0x81c2c92e, 0x92722c85,
    0xa2bfe8a1, 0xa81a664b, 0xc24b8b70, 0xc76c51a3, 0xd192e819, 0xd6990624, 0xf40e3585, 0x106aa070,
    0x19a4c116, 0x1e376c08, 0x2748774c, 0x34b0bcb5, 0x391c0cb3, 0x4ed8aa4a, 0x5b9cca4f, 0x682e6ff3,
    0x748f82ee, 0x78a5636f, 0x84c87814, 0x8cc70208, 0x90befffa, 0xa4506ceb, 0xbef9a3f7, 0xc67178f2,
];

// The initial hash value.
const INITIAL: [u32; 8] = [
    0x6a09e667, 0xbb67ae85, 0x3c6ef372, 0xa54ff53a, 0x510e527f, 0x9b05688c, 0x1f83d9ab, 0x5be0cd19,
];

// The message schedule of a block whose words are the first sixteen of m.
fn message_schedule(m: [u32; 64]) -> [u32; 64]
    ensures { result ≡ S.message_schedule 48 (take 16 m) }
{
    let mut w = m;
    // By index: each word is made of four before it in the same array.
    for n in 0..48 {
        w[n + 16] = schedule_word(w[n + 14], w[n + 9], w[n + 1], w[n]);
    }
    w
}

// One round.
#[tactic(auto, unfolding(crate::specs::Sha256::round, crate::specs::Sha256::moved, words::specs::Word::add))]
fn round(k: u32, w: u32, s: [u32; 8]) -> [u32; 8]
    ensures { result ≡ S.round k w s }
{
    let t = temp1(s[4], s[5], s[6], s[7], k, w);
    let u = temp2(s[0], s[1], s[2]);
    [
        t.wrapping_add(u),
        s[0],
        s[1],
        s[2],
        s[3].wrapping_add(t),
        s[4],
        s[5],
        s[6],
    ]
}

// All rounds. Four in a turn: one in a turn, by `for` over the constants, was tried, and takes 1.18 of the
// time (docs/SPEED.md).
fn rounds(w: [u32; 64], h: [u32; 8]) -> [u32; 8]
    ensures { result ≡ S.rounds w 64 h }
{
    let mut s = h;
    for q in 0..16 {
        let i = 4 * q;
        let a = round(CONSTANTS[i], w[i], s);
        let b = round(CONSTANTS[i + 1], w[i + 1], a);
        let c = round(CONSTANTS[i + 2], w[i + 2], b);
        let d = round(CONSTANTS[i + 3], w[i + 3], c);
        s = d;
    }
    s
}

// Two hash values added word by word.
fn sums(h: [u32; 8], s: [u32; 8]) -> [u32; 8]
    ensures { result ≡ S.sums h s }
{
    std::array::from_fn(|k| h[k].wrapping_add(s[k]))
}

// The hash value of a message of one block.
#[tactic(auto, using(crate::proofs::HashLaws::hash_parts))]
pub fn hash(m: &[u8]) -> [u32; 8]
    requires { length m.now ≤ 55 }
    ensures { result ≡ S.hash m.now }
{
    sums(INITIAL, rounds(message_schedule(block_words(m)), INITIAL))
}
