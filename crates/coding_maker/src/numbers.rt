// What each byte stands for where a number is drawn (document 02, 2026-03), in one table: a draw is then
// a look-up, and needs no division.
ghost use Rattle.std.specs.Prelude.{◌≡◌, ℕ, ◌+◌, ◌%◌, ◌<◌, length, get_or};
ghost use Rattle.lists.specs.Tabulation.{tab};
ghost use Rattle.coding_maker.specs.Draw.{limit};
ghost use Rattle.coding_maker.specs.Numbers.{stands_for, number_table};

use cipher::lengths;
use parts::in_parts;

// In place of a number, where a byte is skipped: a draw is a look-up in a table of bytes, so no None.
pub const SKIPPED: u8 = 16;

// Byte b modulo k + 1, where row has the remainders of the bytes before it: they come again and again.
fn remainder(row: &[u8], k: usize, b: usize) -> u8
    requires { (k < 16) × (b < 256) × (length row.now ≡ 256) × ((i : ℕ) → i < b → get_or row.now i 0 ≡ i % (k + 1)) }
    ensures { result ≡ b % (k + 1) }
{
    if b <= k {
        return b as u8;
    }
    row[b - (k + 1)]
}

// What every byte stands for, where a number from 0 to k is drawn: bytes from the limit of k on are skipped.
fn fill_row(k: usize, row: &mut [u8])
    requires { (k < 16) × (length row.old ≡ 256) }
    ensures { row.new ≡ tab 256 (stands_for k) }
{
    row.fill(SKIPPED);
    let limit = 256 - 256 % (k + 1);
    // By index: each entry is made of one before it in the same row.
    for b in 0..limit {
        let r = remainder(row, k, b);
        row[b] = r;
    }
}

// What every byte stands for, where a number from 0 to k is drawn: a row of 256 for each k below 16.
#[derive(Drop)]
pub struct Numbers {
    pub table: [u8; 4096],
    ghost made: { table ≡ number_table },
}

impl Numbers {
    pub fn new() -> Numbers {
        let mut table = [0; 4096];
        in_parts(&mut table, lengths::BYTES, lengths::VALUES, |k, row| {
            fill_row(k, row);
        });
        Numbers { table }
    }

    // What byte b stands for, where a number from 0 to k is drawn.
    #[inline]
    pub fn stands_for(&self, k: usize, b: u8) -> u8
        requires { k < 16 }
        ensures { result ≡ stands_for k b }
    {
        self.table[lengths::BYTES * k + usize::from(b)]
    }
}
