// Subtract tables (document 02, 2026-01), from inverted codings. A subtract table is an add table: its
// first operand is complemented, as under the key half byte 15, and the complement of the sum is coded.
ghost use Rattle.std.specs.Prelude.{◌≡◌, ◌*◌, ◌%◌, ◌<◌, length};
ghost use Rattle.std.specs.Int.Bits.{bit_xor};
ghost use Rattle.lists.specs.Tabulation.{tab, chunks};
ghost use Rattle.cipher.specs.Coding.{coding_at};
ghost use Rattle.reading.specs.Lengths.{subtract_length};
ghost use Rattle.reading_book.specs.Made.{difference_entries, made_subtract};

use cipher::lengths;
use parts::in_parts;
use reading::lengths::SUBTRACT;
use std::array::from_fn;
use table_maker::adds::{entry, half, keyed, row_summands};
use table_maker::inverted::InvertedWords;
use table_maker::rounds::Round;
use table_maker::rows::{Sum, table};

// The key half byte by which a half byte is complemented.
const COMPLEMENT: u8 = 15;

// The difference whose complement is the half byte of the sum s, under the key half byte l.
fn keyed_difference(s: usize, l: u8) -> usize
    requires { l < 16 }
    ensures { (result ≡ bit_xor (s % 16) (bit_xor 15 l)) × (result < 16) }
{
    s % lengths::VALUES ^ usize::from(COMPLEMENT ^ l)
}

// The half byte g at place p of the set after the round, coded.
fn coded(round: Round, p: usize, g: usize) -> u8
    requires { (p < 32) × (g < 16) }
    ensures { (result ≡ coding_at round.entry.after.now p g) × (result < 16) }
{
    round.after[lengths::CODING * p + g]
}

// The entries of the sums 0 to 31 at place p: l is the key half byte of the difference.
fn difference_entries(round: Round, l: u8, p: usize) -> [u8; 32]
    requires { (p < 24) × (l < 16) }
    ensures { result ≡ tab 32 (difference_entries round.entry.after.now round.entry.middles.bytes.now l p) }
{
    from_fn(|s| {
        let c = round.middles.carry_out(p, s / lengths::VALUES);
        entry(coded(round, p + lengths::HALVES, keyed_difference(s, l)), c)
    })
}

// Subtract table p of a round: m has its middle codings inverted, n the words 0 to 2 of the set after it,
// k is the row of round keys.
fn subtract_table(
    m: &InvertedWords,
    n: &InvertedWords,
    round: Round,
    k: [u32; 6],
    p: usize,
    out: &mut [u8],
)
    requires { (p < 24) × (length out.old ≡ subtract_length) }
    ensures { out.new ≡ made_subtract m.now.bytes n.now.bytes round.entry.after.now round.entry.middles.bytes.now k p }
{
    let i = p / lengths::HALVES;
    let j = p % lengths::HALVES;
    let at = lengths::CODING * p;
    let a = row_summands(&m.bytes, at, COMPLEMENT, round.middles.mask_in(p));
    let b = keyed(&n.bytes, at, half(k[2 * i], j));
    let e = difference_entries(round, half(k[2 * i + 1], j), p);
    table::<Sum>(&e, &a, &b, out);
}

// The subtract tables of a round.
pub fn subtract_tables(
    m: &InvertedWords,
    n: &InvertedWords,
    round: Round,
    k: [u32; 6],
    out: &mut [u8],
)
    requires { length out.old ≡ 24 * subtract_length }
    ensures { out.new ≡ chunks 24 (made_subtract m.now.bytes n.now.bytes round.entry.after.now round.entry.middles.bytes.now k) }
{
    in_parts(out, SUBTRACT, lengths::MIDDLES, |p, part| {
        subtract_table(m, n, round, k, p, part)
    });
}
