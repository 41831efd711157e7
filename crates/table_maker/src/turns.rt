// Turn tables (01's term), from inverted codings.
ghost use Rattle.std.specs.Prelude.{◌≡◌, ℕ, ◌+◌, ◌*◌, ◌<◌, ◌≤◌, length};
ghost use Rattle.cipher.specs.Lengths.{middles_length, turn_length, coding_length};
ghost use Rattle.lists.specs.Tabulation.{chunks};
ghost use Rattle.lists.specs.Blocks.{Below};
ghost use Rattle.cipher.specs.Tables as T;
ghost use Rattle.table_maker.specs.Made.{upper_part, lower_part, turned_rows, turned_by, itself};

use crate::inverted::InvertedWords;
use crate::rows::{Sum, table};
use cipher::lengths;
use parts::in_parts;
use std::array::from_fn;

// How half byte j of word i is turned: which half bytes of the word make it, the upper one and the
// lower one, and as those of which sum (01's term) they are cut.
pub trait Turn {
    ghost above: { ℕ → ℕ → ℕ };

    ghost below: { ℕ → ℕ → ℕ };

    ghost sum: { ℕ → ℕ };

    fn upper(i: usize, j: usize) -> usize
        requires { (i < 3) × (j < 8) }
        ensures { (result ≡ above i j) × (result < 8) };

    fn lower(i: usize, j: usize) -> usize
        requires { (i < 3) × (j < 8) }
        ensures { (result ≡ below i j) × (result < 8) };

    fn cut(i: usize) -> usize
        requires { i < 3 }
        ensures { result ≡ sum i };
}

// The turns of a sealing book, from the middle codings to those of the set after a round.
pub struct Sealing;

// How far above half byte j of a new word lie the two half bytes of its sum, mod 8.
const UPPER: [usize; 3] = [6, 2, 1];

const LOWER: [usize; 3] = [5, 1, 0];

impl Turn for Sealing {
    ghost above = { T.upper };

    ghost below = { T.lower };

    ghost sum = { itself };

    fn upper(i: usize, j: usize) -> usize {
        (j + UPPER[i]) % lengths::HALVES
    }

    fn lower(i: usize, j: usize) -> usize {
        (j + LOWER[i]) % lengths::HALVES
    }

    fn cut(i: usize) -> usize {
        i
    }
}

// What the upper of two half bytes of sum i gives to a turned one, and the lower: two formulas, and not
// one with a constant.
fn upper_part(i: usize, u: u8) -> u8
    requires { u < 16 }
    ensures { result ≡ upper_part i u }
{
    if i == 1 {
        return 8 * u % 16;
    }
    2 * u % 16
}

fn lower_part(i: usize, v: u8) -> u8
    ensures { result ≡ lower_part i v }
{
    if i == 1 {
        return v / 2;
    }
    v / 8
}

// A turn table: s has inverted codings, those of the upper and of the lower half byte at two places,
// cut as those of sum i; the coding of the turned half byte is in the front of coding.
pub fn turned_table(s: &[u8], upper: usize, lower: usize, i: usize, coding: &[u8], out: &mut [u8])
    requires { (upper + coding_length ≤ length s.now) × (lower + coding_length ≤ length s.now) × Below 16 s.now
        × (coding_length ≤ length coding.now) × (length out.old ≡ turn_length) }
    ensures { out.new ≡ turned_rows s.now upper lower i coding.now }
{
    let a: [u8; lengths::VALUES] = from_fn(|q| upper_part(i, s[upper + q]));
    let b: [u8; lengths::VALUES] = from_fn(|q| lower_part(i, s[lower + q]));
    table::<Sum>(coding, &a, &b, out);
}

// Turn table p of a round: s has the codings of the words that are turned inverted, codings begins with
// those of the turned words.
fn turn_table<T: Turn>(s: &InvertedWords, codings: &[u8], p: usize, out: &mut [u8])
    requires { (p < 24) × (middles_length ≤ length codings.now) × (length out.old ≡ turn_length) }
    ensures { out.new ≡ turned_by T.above T.below T.sum s.now.bytes codings.now p }
{
    let i = p / lengths::HALVES;
    let j = p % lengths::HALVES;
    let upper = lengths::CODING * (lengths::HALVES * i + T::upper(i, j));
    let lower = lengths::CODING * (lengths::HALVES * i + T::lower(i, j));
    let at = lengths::CODING * p;
    turned_table(&s.bytes, upper, lower, T::cut(i), &codings[at..], out);
}

// The turn tables of a round.
pub fn turn_tables<T: Turn>(s: &InvertedWords, codings: &[u8], out: &mut [u8])
    requires { (middles_length ≤ length codings.now) × (length out.old ≡ 24 * turn_length) }
    ensures { out.new ≡ chunks 24 (turned_by T.above T.below T.sum s.now.bytes codings.now) }
{
    in_parts(out, lengths::TURN, lengths::MIDDLES, |p, part| {
        turn_table::<T>(s, codings, p, part)
    });
}
