// Fold tables (01's term), from inverted codings.
ghost use Rattle.std.specs.Prelude.{◌≡◌, ◌*◌, ◌/◌, ◌%◌, ◌<◌, ◌≤◌, length};
ghost use Rattle.cipher.specs.Lengths.{fold_length, group_length, set_length};
ghost use Rattle.lists.specs.Tabulation.{chunks};
ghost use Rattle.cipher.specs.Coding.{block_half};
ghost use Rattle.table_maker.specs.Made.{made_fold};

use crate::adds::{half, keyed};
use crate::inverted::InvertedSet;
use crate::rows::{Xor, table};
use cipher::lengths;
use parts::in_parts;

// Half byte p of a block.
fn block_half(k: [u8; 16], p: usize) -> u8
    requires { p < 32 }
    ensures { (result ≡ block_half k (p / 8) (p % 8)) × (result < 16) }
{
    half(u32::from(k[p / 2]), p % 2)
}

// Fold table p of a group under the key block k: s has set r inverted, u the message set inverted,
// first begins with set 0.
fn fold_table(s: &InvertedSet, u: &InvertedSet, first: &[u8], k: [u8; 16], p: usize, out: &mut [u8])
    requires { (p < 32) × (set_length ≤ length first.now) × (length out.old ≡ fold_length) }
    ensures { out.new ≡ made_fold s.now.bytes u.now.bytes first.now k p }
{
    let at = lengths::CODING * p;
    let a = keyed(&s.bytes, at, block_half(k, p));
    table::<Xor>(&first[at..], &a, &u.bytes[at..], out);
}

// A group of fold tables.
pub fn fold_tables(s: &InvertedSet, u: &InvertedSet, first: &[u8], k: [u8; 16], out: &mut [u8])
    requires { (set_length ≤ length first.now) × (length out.old ≡ group_length) }
    ensures { out.new ≡ chunks 32 (made_fold s.now.bytes u.now.bytes first.now k) }
{
    in_parts(out, lengths::FOLD, lengths::SET_CODINGS, |p, part| {
        fold_table(s, u, first, k, p, part)
    });
}
