// The new words of a round by its turn tables, from the sums.
ghost use Rattle.std.specs.Prelude.{◌≡◌, ◌%◌, ◌<◌};
ghost use Rattle.lists.specs.Blocks.{Block};
ghost use Rattle.cipher.specs.Coding.{block_half};
ghost use Rattle.cipher.specs.Tables.{table_round};
ghost use Rattle.table_reader.specs.Reading.{turn_byte, sum_bytes};

use crate::entry::{RoundTables, high, joined, low, turn_at};

// Half byte j mod 8 of sum i.
fn half(s: &[u8; 12], i: usize, j: usize) -> usize
    requires { (i < 3) × (j < 16) }
    ensures { (result ≡ block_half s.now i (j % 8)) × (result < 16) }
{
    let x = s[4 * i + j % 8 / 2];
    if j % 2 == 0 {
        return low(x);
    }
    high(x)
}

// Byte m of new word i: its half bytes j are turned from the half bytes j + u and j + v of sum i.
fn turn_two(t: &RoundTables, s: &[u8; 12], i: usize, m: usize, u: usize, v: usize) -> u8
    requires { (i < 3) × (m < 4) × (u < 8) × (v < 8) }
    ensures { result ≡ turn_byte t.now s.now i m u v }
{
    let lo = turn_at(
        t,
        8 * i + 2 * m,
        half(s, i, 2 * m + u),
        half(s, i, 2 * m + v),
    );
    let hi = turn_at(
        t,
        8 * i + (2 * m + 1),
        half(s, i, 2 * m + 1 + u),
        half(s, i, 2 * m + 1 + v),
    );
    joined(lo, hi)
}

// The lent block taken through the round: word 3 is the old word 0, the others are turned from the
// sums.
pub fn turns(t: &RoundTables, s: &[u8; 12], y: &mut [u8; 16])
    requires { Block y.old × (s.now ≡ sum_bytes t.now y.old) }
    ensures { y.new ≡ table_round t.now y.old }
{
    // By index: a turn is at one byte of each word, at m, m + 4, m + 8 and m + 12.
    for m in 0..4 {
        y[m + 12] = y[m];
        y[m] = turn_two(t, s, 0, m, 6, 5);
        y[m + 4] = turn_two(t, s, 1, m, 2, 1);
        y[m + 8] = turn_two(t, s, 2, m, 1, 0);
    }
}
