// 32-bit words: rotations, and the four bytes of a word, lowest first.
ghost use Rattle.std.specs.Prelude.{◌≡◌, ◌+◌, ◌*◌, ◌≤◌, length};
ghost use Rattle.lists.specs.Blocks.{block_length};
ghost use Rattle.lists.specs.Tabulation.{tab};
ghost use Rattle.words.specs.Word as W;

// x turned left by n, a count taken mod 32.
#[tactic(auto, using(crate::proofs::WordLaws::rotated_left))]
pub fn rotate_left(x: u32, n: usize) -> u32
    ensures { result ≡ W.rol n x }
{
    x.rotate_left((n % 32) as u32)
}

// x turned right by n, a count taken mod 32.
#[tactic(auto, using(crate::proofs::WordLaws::rotated_right))]
pub fn rotate_right(x: u32, n: usize) -> u32
    ensures { result ≡ W.ror n x }
{
    x.rotate_right((n % 32) as u32)
}

// The word of four bytes.
#[tactic(auto, unfolding(crate::specs::Word::word))]
pub fn word(a: u8, b: u8, c: u8, d: u8) -> u32
    ensures { result ≡ W.word a b c d }
{
    u32::from_le_bytes([a, b, c, d])
}

// The word at byte i of s.
#[tactic(auto, unfolding(crate::specs::Word::word_at))]
pub fn word_at(s: &[u8], i: usize) -> u32
    requires { i + 4 ≤ length s.now }
    ensures { result ≡ W.word_at s.now i }
{
    word(s[i], s[i + 1], s[i + 2], s[i + 3])
}

// The first N words of s.
#[tactic(auto, using(lists::proofs::FromFnLaws::tab_from_fn))]
pub fn words_of<const N: usize>(s: &[u8]) -> [u32; N]
    requires { 4 * N ≤ length s.now }
    ensures { result ≡ tab N (λ k. W.word_at s.now (4 * k)) }
{
    std::array::from_fn(|k| word_at(s, 4 * k))
}

// The four words of the 16 bytes of s.
#[tactic(auto, unfolding(lists::specs::Tabulation::tab, crate::specs::Word::words4))]
pub fn words(s: &[u8]) -> [u32; 4]
    requires { block_length ≤ length s.now }
    ensures { result ≡ W.words4 s.now }
{
    words_of(s)
}

// The bytes of a word.
#[tactic(auto, unfolding(crate::specs::Word::bytes_of))]
pub fn bytes_of(w: u32) -> [u8; 4]
    ensures { result ≡ W.bytes_of w }
{
    w.to_le_bytes()
}

// The bytes of four words.
pub fn bytes(x: [u32; 4]) -> [u8; 16]
    ensures { result ≡ W.bytes x }
{
    std::array::from_fn(|i| bytes_of(x[i / 4])[i % 4])
}

// Four words xored with four.
pub fn xor(x: [u32; 4], y: [u32; 4]) -> [u32; 4]
    ensures { result ≡ W.xor_words x y }
{
    std::array::from_fn(|k| x[k] ^ y[k])
}
