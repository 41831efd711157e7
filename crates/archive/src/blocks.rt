// Sealed blocks opened: decoded by a table that has a byte for each byte in each place of a block, then
// deciphered in CBC.
ghost use Rattle.std.specs.Prelude.{◌≡◌, ◌++◌, ◌+◌, ◌*◌, ◌≤◌, length, drop, map};
ghost use Rattle.lists.specs.Blocks.{Bytes, block_length, block_of, block_before};
ghost use Rattle.lists.specs.Tabulation.{chunks};
ghost use Rattle.cipher.specs.KeySize as S;
ghost use Rattle.words.specs.Word.{words4};
ghost use Rattle.words.specs.Rows.{RowsOfWords};
ghost use Rattle.cipher.specs.Lea as L;
ghost use Rattle.cipher.specs.Images.{imaged};

use cipher::block::put_block;
use cipher::image::{Images, look_up};
use cipher::lengths;
use cipher::round::four_unrounds;
use cipher::rows::RoundKeys;
use words::word::{bytes, words, xor};

// A block decoded, in words.
fn decoded(table: &Images, block: &[u8]) -> [u32; 4]
    requires { length block.now ≡ block_length }
    ensures { result ≡ words4 (imaged table.now block.now) }
{
    let mut b = [0u8; 16];
    look_up(table, block, &mut b);
    words(&b)
}

// Four blocks deciphered side by side: while one waits for its sums, the others go on. Of one block
// RoundKeys::decipher makes the same, with no loop over blocks in the loop; that is by index here as
// there (cipher's rows.rt).
fn decipher_four(keys: &RoundKeys, blocks: [[u32; 4]; 4]) -> [[u32; 4]; 4]
    ensures { result ≡ map (L.backward keys.now.rows (S.rounds keys.now.size)) blocks }
{
    let mut x = blocks;
    for q in (0..keys.size.rounds() / 4).rev() {
        for y in x.iter_mut() {
            let z = four_unrounds(
                keys.rows[4 * q],
                keys.rows[4 * q + 1],
                keys.rows[4 * q + 2],
                keys.rows[4 * q + 3],
                *y,
            );
            *y = z;
        }
    }
    x
}

// A sealed text, and what opens it: round keys, a byte for each byte in each place of a block, and what
// stands in front of the first block. That a table which is lent holds bytes its type tells no proof, so
// it is said here.
#[derive(Clone, Copy)]
pub struct Sealed<'a> {
    pub keys: RoundKeys,
    pub table: &'a Images,
    pub iv: [u8; 16],
    pub text: &'a [u8],
    ghost keyed: { RowsOfWords keys.rows },
    ghost decodes: { Bytes table.now },
}

impl<'a> Sealed<'a> {
    ghost use Rattle.archive.specs.Opened.{opened_of};

    // Block k, decoded, in words.
    fn words_of(&self, k: usize) -> [u32; 4]
        requires { block_length * k + block_length ≤ length self.now.text.now }
        ensures { result ≡ words4 (imaged self.now.table.now (block_of self.now.text.now k)) }
    {
        let at = lengths::BLOCK * k;
        decoded(self.table, &self.text[at..at + lengths::BLOCK])
    }

    // What stands in front of block k, decoded, in words.
    fn words_before(&self, k: usize) -> [u32; 4]
        requires { block_length * k ≤ length self.now.text.now }
        ensures { result ≡ words4 (imaged self.now.table.now (block_before self.now.iv self.now.text.now k)) }
    {
        if k == 0 {
            return decoded(self.table, &self.iv);
        }
        self.words_of(k - 1)
    }

    // Block k opened.
    pub fn open_block(&self, k: usize) -> [u8; 16]
        requires { block_length * k + block_length ≤ length self.now.text.now }
        ensures { result ≡ opened_of self.now k }
    {
        let prior = self.words_before(k);
        let c = self.words_of(k);
        bytes(xor(self.keys.decipher(c), prior))
    }

    // The first n blocks opened into the front of out, four at a time while there are so many. The last
    // block, which has padding, is opened by itself: so n is fewer than the text has.
    pub fn open_blocks(&self, n: usize, out: &mut [u8])
        requires { (n ≤ 65536) × (block_length * n ≤ length self.now.text.now) × (block_length * n ≤ length out.old) }
        ensures { out.new ≡ chunks n (opened_of self.now) ++ drop (block_length * n) out.old }
    {
        let fours = n / 4;
        // By index: a turn reads four blocks and what stands in front of them, and fewer than four are
        // left at the end.
        for j in 0..fours {
            let k = 4 * j;
            // Read in front of the four: after them it took 1.05 of the time.
            let prior = self.words_before(k);
            let a = self.words_of(k);
            let b = self.words_of(k + 1);
            let c = self.words_of(k + 2);
            let d = self.words_of(k + 3);
            let before = [prior, a, b, c];
            let y = decipher_four(&self.keys, [a, b, c, d]);
            for m in 0..4 {
                put_block(out, lengths::BLOCK * (k + m), bytes(xor(y[m], before[m])));
            }
        }
        for k in 4 * fours..n {
            put_block(out, lengths::BLOCK * k, self.open_block(k));
        }
    }
}
