// Add tables (01's term), from inverted codings.
ghost use Rattle.std.specs.Prelude.{◌≡◌, ◌+◌, ◌*◌, ◌/◌, ◌%◌, ◌<◌, ◌≤◌, length};
ghost use Rattle.std.specs.Int.Bits.{bit_xor};
ghost use Rattle.cipher.specs.Lengths.{add_length, adds_length, coding_length};
ghost use Rattle.lists.specs.Tabulation.{tab, chunks};
ghost use Rattle.lists.specs.Blocks.{Below};
ghost use Rattle.lists.specs.HalfBytes.{half_byte};
ghost use Rattle.cipher.specs.Coding.{coding_at};
ghost use Rattle.cipher.specs.Chain.{mask_into, mask_out_of};
ghost use Rattle.table_maker.specs.Made.{RoundBytes, keyed_by, summands, sum_entries, made_add};

use crate::inverted::InvertedSet;
use crate::rows::{Sum, table};
use cipher::lengths;
use parts::in_parts;
use std::array::from_fn;

// Half byte j of a word.
pub fn half(w: u32, j: usize) -> u8
    requires { j < 8 }
    ensures { (result ≡ half_byte w j) × (result < 16) }
{
    ((w >> (4 * j)) % 16) as u8
}

// The sixteen values at a place of s, each under the key half byte k.
pub fn keyed(s: &[u8], at: usize, k: u8) -> [u8; 16]
    requires { at + coding_length ≤ length s.now }
    ensures { result ≡ tab 16 (keyed_by s.now at k) }
{
    from_fn(|q| s[at + q] ^ k)
}

// The summand of a row: its operand u under k, and the carry c under m.
fn summand(u: u8, k: u8, c: usize, m: u8) -> u8
    requires { (u < 16) × (k < 16) × (c < 2) × (m < 2) }
    ensures { result ≡ bit_xor u k + bit_xor c m }
{
    (u ^ k) + ((c as u8) ^ m)
}

// The summands of the rows of an add table: without a carry, then with one. Of a slice, not of inverted codings of any number:
// that was tried, and the goals of the closure did not close.
pub fn row_summands(s: &[u8], at: usize, k: u8, m: u8) -> [u8; 32]
    requires { (at + coding_length ≤ length s.now) × Below 16 s.now × (k < 16) × (m < 2) }
    ensures { result ≡ tab 32 (summands s.now at k m) }
{
    from_fn(|x| { summand(s[at + x % lengths::VALUES], k, x / lengths::VALUES, m) })
}

// The bytes that a chain has for a round: 24 codings of half bytes, then 24 masks that are bits.
#[derive(Clone, Copy)]
pub struct Middles<'a> {
    pub bytes: &'a [u8],
    ghost valid: { RoundBytes bytes.now },
}

impl Middles<'_> {
    // The mask of the carry into half byte p of the round's sums: none into the lowest of a word.
    pub fn mask_in(self, p: usize) -> u8
        requires { p < 24 }
        ensures { (result ≡ mask_into self.entry.bytes.now (p / 8) (p % 8)) × (result < 2) }
    {
        if p % lengths::HALVES == 0 {
            return 0;
        }
        self.bytes[lengths::MASKS + p]
    }

    // The mask of the carry out of half byte p: that of the next half byte of its word, counted mod 8.
    fn mask_out(self, p: usize) -> u8
        requires { p < 24 }
        ensures { (result ≡ mask_out_of self.entry.bytes.now (p / 8) (p % 8)) × (result < 2) }
    {
        let i = p / lengths::HALVES;
        self.bytes[lengths::MASKS + (lengths::HALVES * i + (p + 1) % lengths::HALVES)]
    }

    // The carry c out of half byte p, under its mask.
    pub fn carry_out(self, p: usize, c: usize) -> u8
        requires { (p < 24) × (c < 2) }
        ensures { (result ≡ bit_xor c (mask_out_of self.entry.bytes.now (p / 8) (p % 8))) × (result < 2) }
    {
        (c as u8) ^ self.mask_out(p)
    }

    // The half byte g at place p, coded.
    fn coded(self, p: usize, g: usize) -> u8
        requires { (p < 24) × (g < 16) }
        ensures { (result ≡ coding_at self.entry.bytes.now p g) × (result < 16) }
    {
        self.bytes[lengths::CODING * p + g]
    }
}

// The entry of a sum: its carry and its half byte, coded.
pub fn entry(g: u8, c: u8) -> u8
    requires { (g < 16) × (c < 2) }
    ensures { result ≡ 16 * c + g }
{
    16 * c + g
}

// The entries of the sums 0 to 31 at place p.
fn sum_entries(round: Middles, p: usize) -> [u8; 32]
    requires { p < 24 }
    ensures { result ≡ tab 32 (sum_entries round.entry.bytes.now p) }
{
    from_fn(|s| {
        let c = round.carry_out(p, s / lengths::VALUES);
        entry(round.coded(p, s % lengths::VALUES), c)
    })
}

// Add table p of a round: s has the set before the round inverted, k is the row of round keys.
fn add_table(s: &InvertedSet, round: Middles, k: [u32; 6], p: usize, out: &mut [u8])
    requires { (p < 24) × (length out.old ≡ add_length) }
    ensures { out.new ≡ made_add s.now.bytes round.entry.bytes.now k p }
{
    let i = p / lengths::HALVES;
    let j = p % lengths::HALVES;
    let at = lengths::CODING * p;
    let a = row_summands(&s.bytes, at, half(k[2 * i], j), round.mask_in(p));
    let b = keyed(&s.bytes, at + lengths::WORD, half(k[2 * i + 1], j));
    let e = sum_entries(round, p);
    table::<Sum>(&e, &a, &b, out);
}

// The add tables of a round.
pub fn add_tables(s: &InvertedSet, round: Middles, k: [u32; 6], out: &mut [u8])
    requires { (length out.old ≡ adds_length) }
    ensures { out.new ≡ chunks 24 (made_add s.now.bytes round.entry.bytes.now k) }
{
    in_parts(out, lengths::ADD, lengths::MIDDLES, |p, part| {
        add_table(s, round, k, p, part)
    });
}
