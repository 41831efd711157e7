// Doubling, the subkeys of CMAC, and the CBC-MAC under it.
ghost use Rattle.std.specs.Prelude.{◌≡◌, ◌*◌, ◌≤◌, length};
ghost use Rattle.lists.specs.Blocks.{zeros, cut, block_length};
ghost use Rattle.cipher.specs.KeySize.{rounds};
ghost use Rattle.words.specs.Word.{words4};
ghost use Rattle.cipher.specs.Lea.{first_rounds};
ghost use Rattle.cipher.specs.Cmac as C;

use crate::lengths;
use crate::rows::RoundKeys;
use words::word::{bytes, words, xor};

// The subkeys of a key.
#[derive(Clone, Copy, Debug, PartialEq, Eq)]
pub struct SubkeyPair {
    pub k1: [u8; 16],
    pub k2: [u8; 16],
}

// A byte shifted left by one bit, the bit that comes in taken from the byte after it.
fn shifted(b: u8, next: u8) -> u8
    ensures { result ≡ C.shifted b next }
{
    b % 128 * 2 + next / 128
}

// A block doubled, byte 0 highest.
pub fn double(b: [u8; 16]) -> [u8; 16]
    ensures { result ≡ C.double b }
{
    let mut d = [0u8; 16];
    for (k, x) in d[0..15].iter_mut().enumerate() {
        *x = shifted(b[k], b[k + 1]);
    }
    let last = shifted(b[15], 0);
    if 128 <= b[0] {
        d[15] = last ^ 0x87;
    } else {
        d[15] = last;
    }
    d
}

// K1 and K2 under round keys.
pub fn subkeys(keys: RoundKeys) -> SubkeyPair
    ensures k1 { result.k1 ≡ C.subkey1 (first_rounds keys.rows (rounds keys.size)) }
    ensures k2 { result.k2 ≡ C.subkey2 (first_rounds keys.rows (rounds keys.size)) }
{
    let l = bytes(keys.encipher([0u32; 4]));
    let k1 = double(l);
    let k2 = double(k1);
    SubkeyPair { k1, k2 }
}

// The CBC-MAC, in words, of the first n blocks of a text, from the zero block.
pub fn cbc_mac(keys: RoundKeys, text: &[u8], n: usize) -> [u32; 4]
    requires { block_length * n ≤ length text.now }
    ensures { result ≡ words4 (C.cbc_mac (first_rounds keys.rows (rounds keys.size)) zeros (cut n text.now)) }
{
    let (blocks, _) = text.as_chunks::<{ lengths::BLOCK }>();
    let mut x = [0u32; 4];
    for block in blocks[..n].iter() {
        let y = keys.encipher(xor(x, words(block)));
        x = y;
    }
    x
}
