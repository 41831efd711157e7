// The three sums of a round by its add tables, two half bytes at a time and the three words side by
// side, so that no lookup waits for another word's.
ghost use Rattle.std.specs.Prelude.{◌≡◌, ◌+◌, ◌*◌, ◌<◌, ◌≤◌, length};
ghost use Rattle.cipher.specs.Lengths.{add_length, round_length};
ghost use Rattle.table_reader.specs.Reading.{TwoIs, sum_bytes};

use crate::entry::{add_at, carry, high, joined, low};

// Two half bytes of a sum, the lower one in the low half, and the carry out of them.
// The carry is a number: the index of the next entry is made of it, and a bool would be turned back there.
#[derive(Clone, Copy, Default)]
pub struct Two {
    pub sum: u8,
    pub carry: usize,
}

// Tables k and k + 1 of 512 bytes in t at the halves of x and y, the carry c coming in.
pub fn add_two(t: &[u8], k: usize, c: usize, x: u8, y: u8) -> Two
    requires { (c < 2) × (add_length * k + 2 * add_length ≤ length t.now) }
    ensures { TwoIs t.now k c x y result.sum result.carry }
{
    let e = add_at(t, k, c, low(x), low(y));
    let f = add_at(t, k + 1, carry(e), high(x), high(y));
    Two {
        sum: joined(e, f),
        carry: carry(f),
    }
}

// The sums of a block, four bytes each.
pub fn sums(t: &[u8], b: [u8; 16]) -> [u8; 12]
    requires { round_length ≤ length t.now }
    ensures { result ≡ sum_bytes t.now b }
{
    let mut s = [0u8; 12];
    let mut c0 = 0usize;
    let mut c1 = 0usize;
    let mut c2 = 0usize;
    // By index: a turn is at one byte of each word, at m, m + 4, m + 8 and m + 12.
    for m in 0..4 {
        let w0 = add_two(t, 2 * m, c0, b[m], b[m + 4]);
        let w1 = add_two(t, 2 * m + 8, c1, b[m + 4], b[m + 8]);
        let w2 = add_two(t, 2 * m + 16, c2, b[m + 8], b[m + 12]);
        s[m] = w0.sum;
        s[m + 4] = w1.sum;
        s[m + 8] = w2.sum;
        c0 = w0.carry;
        c1 = w1.carry;
        c2 = w2.carry;
    }
    s
}
