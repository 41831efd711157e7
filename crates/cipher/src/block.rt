// Blocks in slices, and blocks coded by a set that lies in a slice (01, "Chain of codings").
// Decoding is coding by the inverted set.
ghost use Rattle.std.specs.Prelude.{◌≡◌, ◌+◌, ◌<◌, ◌≤◌, ◌++◌, length, take, drop};
ghost use Rattle.cipher.specs.Lengths.{set_length};
ghost use Rattle.lists.specs.Blocks.{block_length};
ghost use Rattle.cipher.specs.Coding.{LowSet, set_of, byte_coded, coded};
ghost use Rattle.cipher.specs.Answers.{bad_text};

use crate::lengths;

// Whether n bytes are no text of blocks that is taken: empty, too long, or not of whole blocks.
pub fn bad_text(n: usize) -> bool
    ensures { result ≡ bad_text n }
{
    if n == 0 {
        return true;
    }
    if n > lengths::LONGEST_CODE {
        return true;
    }
    n % lengths::BLOCK != 0
}

// The 16 bytes of s from a place on.
pub fn block_at(s: &[u8], at: usize) -> [u8; 16]
    requires { at + block_length ≤ length s.now }
    ensures { result ≡ take block_length (drop at s.now) }
{
    let mut b = [0u8; 16];
    b.copy_from_slice(&s[at..at + lengths::BLOCK]);
    b
}

// A block written over the 16 bytes of d from a place on.
pub fn put_block(d: &mut [u8], at: usize, b: [u8; 16])
    requires { at + block_length ≤ length d.old }
    ensures { d.new ≡ take at d.old ++ b ++ drop (at + block_length) d.old }
{
    d[at..at + lengths::BLOCK].copy_from_slice(&b);
}

// Byte k of a block, x, coded: codings 2k and 2k + 1 serve its halves.
fn code_byte(set: &[u8], k: usize, x: u8) -> u8
    requires { (k < block_length) × (set_length ≤ length set.now) × LowSet set.now }
    ensures { result ≡ byte_coded set.now k x }
{
    let at = 2 * lengths::CODING * k;
    let v = x as usize;
    set[at + v % lengths::VALUES] + 16 * set[at + lengths::CODING + v / lengths::VALUES]
}

// A block coded by the set at the front of a slice.
pub fn code_block(set: &[u8], b: [u8; 16]) -> [u8; 16]
    requires { (set_length ≤ length set.now) × LowSet set.now }
    ensures { result ≡ coded (set_of set.now) b }
{
    std::array::from_fn(|k| code_byte(set, k, b[k]))
}
