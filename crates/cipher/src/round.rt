// A round of LEA on four words, the same undone, and four rounds at a time: a block is gone through
// by fours, since each round count is a multiple of four and the compiler then moves no words about.
ghost use Rattle.std.specs.Prelude.{◌≡◌};
ghost use Rattle.cipher.specs.Lea as L;

use words::word::{rotate_left, rotate_right};

// The sum of two words, each under its round key.
fn keyed(x: u32, k: u32, y: u32, l: u32) -> u32
    ensures { result ≡ L.keyed x k y l }
{
    (x ^ k).wrapping_add(y ^ l)
}

// The word that gives the sum s together with x under k, its own key l taken off.
fn unkeyed(s: u32, x: u32, k: u32, l: u32) -> u32
    ensures { result ≡ L.unkeyed s x k l }
{
    s.wrapping_sub(x ^ k) ^ l
}

// A round. Its words are made from the last to the first, each then at the place of a word that is
// not needed any more.
pub fn round(k: [u32; 6], x: [u32; 4]) -> [u32; 4]
    ensures { result ≡ L.round k x }
{
    let c = rotate_right(keyed(x[2], k[4], x[3], k[5]), 3);
    let b = rotate_right(keyed(x[1], k[2], x[2], k[3]), 5);
    let a = rotate_left(keyed(x[0], k[0], x[1], k[1]), 9);
    [a, b, c, x[0]]
}

// The same undone.
pub fn unround(k: [u32; 6], y: [u32; 4]) -> [u32; 4]
    ensures { result ≡ L.unround k y }
{
    let a = y[3];
    let b = unkeyed(rotate_right(y[0], 9), a, k[0], k[1]);
    let c = unkeyed(rotate_left(y[1], 5), b, k[2], k[3]);
    let d = unkeyed(rotate_left(y[2], 3), c, k[4], k[5]);
    [a, b, c, d]
}

// Four rounds, each handed its row.
pub fn four_rounds(k: [u32; 6], l: [u32; 6], m: [u32; 6], n: [u32; 6], x: [u32; 4]) -> [u32; 4]
    ensures { result ≡ L.round n (L.round m (L.round l (L.round k x))) }
{
    round(n, round(m, round(l, round(k, x))))
}

// Four rounds undone.
pub fn four_unrounds(k: [u32; 6], l: [u32; 6], m: [u32; 6], n: [u32; 6], y: [u32; 4]) -> [u32; 4]
    ensures { result ≡ L.unround k (L.unround l (L.unround m (L.unround n y))) }
{
    unround(k, unround(l, unround(m, unround(n, y))))
}
