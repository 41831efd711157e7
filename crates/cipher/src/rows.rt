// Blocks of four words under the rows of a schedule.
ghost use Rattle.std.specs.Prelude.{◌≡◌, ◌≤◌};
ghost use Rattle.cipher.specs.KeySize as S;
ghost use Rattle.cipher.specs.Lea as L;

use crate::round::{four_rounds, four_unrounds, round};
use crate::size::KeySize;

// The rows of round keys of a key, and its size, which tells how many of them its rounds take.
#[derive(Clone, Copy, Debug, PartialEq, Eq)]
pub struct RoundKeys {
    pub rows: [[u32; 6]; 32],
    pub size: KeySize,
}

impl RoundKeys {
    // A block enciphered. Inlined: by a call each block of a CBC-MAC waits for the one before to be
    // stored, 1.15 to 1.20 of the time.
    #[inline(always)]
    pub fn encipher(&self, block: [u32; 4]) -> [u32; 4]
        ensures { result ≡ L.forward self.now.rows (S.rounds self.now.size) block }
    {
        let mut x = block;
        // By fours, so that no words are moved about between rounds (docs/SPEED.md), and by index: as
        // `for k in self.rows.as_chunks::<4>().0[..self.size.rounds() / 4].iter()` it would be no plainer.
        for q in 0..self.size.rounds() / 4 {
            let y = four_rounds(
                self.rows[4 * q],
                self.rows[4 * q + 1],
                self.rows[4 * q + 2],
                self.rows[4 * q + 3],
                x,
            );
            x = y;
        }
        x
    }

    // A block deciphered.
    pub fn decipher(&self, block: [u32; 4]) -> [u32; 4]
        ensures { result ≡ L.backward self.now.rows (S.rounds self.now.size) block }
    {
        let mut x = block;
        // By fours, as above.
        for q in (0..self.size.rounds() / 4).rev() {
            let y = four_unrounds(
                self.rows[4 * q],
                self.rows[4 * q + 1],
                self.rows[4 * q + 2],
                self.rows[4 * q + 3],
                x,
            );
            x = y;
        }
        x
    }

    // The first n rounds on a block.
    pub fn first_rounds(&self, n: usize, block: [u32; 4]) -> [u32; 4]
        requires { n ≤ 32 }
        ensures { result ≡ L.forward self.now.rows n block }
    {
        let mut x = block;
        for row in &self.rows[..n] {
            let y = round(*row, x);
            x = y;
        }
        x
    }
}
