// A message of at most 55 bytes as one block: its bytes, a one bit, zeros, and its length in bits.
// The length is asked of each function, and is no type, since CLAIMS names `copied` and `digest`, which are lent a slice.
ghost use Rattle.std.specs.Prelude.{◌≡◌, ◌+◌, ◌-◌, ◌≤◌, ◌++◌, length, replicate};
ghost use Rattle.sha256.specs.Sha256 as S;

// The bytes of m, then zeros.
#[tactic(auto, using(crate::proofs::PaddingLaws::put_in_zeros))]
pub fn copied(m: &[u8]) -> [u8; 64]
    requires { length m.now ≤ 64 }
    ensures { result ≡ m.now ++ replicate (64 - length m.now) 0 }
{
    let mut p = [0u8; 64];
    p[0..m.len()].copy_from_slice(m);
    p
}

// The padded message.
fn padded(m: &[u8]) -> [u8; 64]
    requires { length m.now ≤ 55 }
    ensures { result ≡ S.padded m.now }
{
    let n = m.len();
    let mut p = copied(m);
    p[n] = 0x80;
    p[56..64].copy_from_slice(&(8 * n as u64).to_be_bytes());
    p
}

// The word at byte i of p, highest byte first.
#[tactic(auto, unfolding(crate::specs::Sha256::big_word_at, words::specs::Word::word))]
fn big_word_at(p: &[u8; 64], i: usize) -> u32
    requires { i + 4 ≤ 64 }
    ensures { result ≡ S.big_word_at p.now i }
{
    u32::from_be_bytes([p[i], p[i + 1], p[i + 2], p[i + 3]])
}

// The block's sixteen words, then zeros in the place of the 48 words that the message schedule adds.
pub fn block_words(m: &[u8]) -> [u32; 64]
    requires { length m.now ≤ 55 }
    ensures { result ≡ S.block (S.padded m.now) 0 ++ replicate 48 0 }
{
    let p = padded(m);
    let mut w = [0u32; 64];
    for (k, x) in w[0..16].iter_mut().enumerate() {
        *x = big_word_at(&p, 4 * k);
    }
    w
}
