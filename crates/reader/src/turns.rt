// The words of a block turned back by the turn tables of a reading round (document 02, 2026-01). The two
// half bytes that a table takes lie side by side in the word, so an index is a byte of it or is made from
// two.
ghost use Rattle.std.specs.Prelude.{◌≡◌, ◌<◌};
ghost use Rattle.reader.specs.Round.{pair_of, turned_byte, turned_bytes};

use cipher::lengths;
use table_reader::entry::{RoundTables, joined};

// Half bytes j and j + 1, mod 8, of word i of a block as one byte, the first one low.
fn pair(b: &[u8; 16], i: usize, j: usize) -> u8
    requires { (i < 3) × (j < 16) }
    ensures { result ≡ pair_of b.now i j }
{
    let x = b[4 * i + j % 8 / 2];
    if j % 2 == 0 {
        return joined(x, x / 16);
    }
    joined(x / 16, b[4 * i + (j + 1) % 8 / 2])
}

// Byte m of word i turned back by the turn tables in t: its half byte j comes from the half bytes j + v
// and j + v + 1 of the word.
fn turned_byte(t: &RoundTables, b: &[u8; 16], i: usize, m: usize, v: usize) -> u8
    requires { (i < 3) × (m < 4) × (v < 8) }
    ensures { result ≡ turned_byte t.now b.now i m v }
{
    let p = pair(b, i, 2 * m + v);
    let lo = t[lengths::TURN * (8 * i + 2 * m) + usize::from(p)];
    let q = pair(b, i, 2 * m + 1 + v);
    let hi = t[lengths::TURN * (8 * i + (2 * m + 1)) + usize::from(q)];
    joined(lo, hi)
}

// The words 0 to 2 of a block turned back by the tables of a round, four bytes each.
pub fn turned(t: &RoundTables, b: &[u8; 16]) -> [u8; 12]
    ensures { result ≡ turned_bytes t.now b.now }
{
    let mut s = [0u8; 12];
    // By index: a turn makes one byte of each word, at m, m + 4 and m + 8. Made by from_fn, one after
    // another (tried in Rust), the twelve bytes take a round to 1.9 of its time.
    for m in 0..4 {
        s[m] = turned_byte(t, b, 0, m, 2);
        s[m + 4] = turned_byte(t, b, 1, m, 6);
        s[m + 8] = turned_byte(t, b, 2, m, 7);
    }
    s
}
