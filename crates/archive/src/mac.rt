// CMAC of a message.
ghost use Rattle.std.specs.Prelude.{◌≡◌, ◌≤◌, length};
ghost use Rattle.lists.specs.Blocks.{Block, block_length};
ghost use Rattle.cipher.specs.KeySize as S;
ghost use Rattle.words.specs.Word.{words4};
ghost use Rattle.cipher.specs.Lea.{first_rounds};
ghost use Rattle.cipher.specs.Cmac as C;
ghost use Rattle.archive.specs.Mac.{filled_block, last_under};

use cipher::cmac::{SubkeyPair, cbc_mac, subkeys};
use cipher::lengths;
use cipher::rows::RoundKeys;
use words::word::{bytes, words, xor};

// How many blocks of a message of n bytes come before its last one.
fn blocks_before(n: usize) -> usize
    ensures { result ≡ C.blocks_before n }
{
    n.saturating_sub(1) / lengths::BLOCK
}

// What is left of a message as a block: hex 80 and zeros come after it where it is not complete.
fn filled(part: &[u8]) -> [u8; 16]
    requires { length part.now ≤ block_length }
    ensures { result ≡ filled_block part.now }
{
    let n = part.len();
    let mut b = [0u8; 16];
    b[0..n].copy_from_slice(part);
    if n < lengths::BLOCK {
        b[n] = 0x80;
    }
    b
}

// The last block of a message, of which a part is left, under its subkey, in words.
fn last_words(part: &[u8], keys: SubkeyPair) -> [u32; 4]
    requires { (length part.now ≤ block_length) × Block keys.k1 × Block keys.k2 }
    ensures { result ≡ words4 (last_under keys.k1 keys.k2 part.now) }
{
    let b = filled(part);
    if part.len() == lengths::BLOCK {
        return xor(words(&b), words(&keys.k1));
    }
    xor(words(&b), words(&keys.k2))
}

// The CMAC of a message under round keys.
pub fn cmac(keys: RoundKeys, message: &[u8]) -> [u8; 16]
    ensures { result ≡ C.cmac (first_rounds keys.rows (S.rounds keys.size)) message.now }
{
    let n = blocks_before(message.len());
    let at = lengths::BLOCK * n;
    let x = cbc_mac(keys, message, n);
    let last = last_words(&message[at..], subkeys(keys));
    bytes(keys.encipher(xor(x, last)))
}
