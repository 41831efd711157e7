// All blocks of a buffer of whole blocks read (document 02, 2026-01): round by round, so that the tables of
// a round serve every block before the next round's, and no block waits for another.
ghost use Rattle.std.specs.Prelude.{◌≡◌, ◌*◌, ◌/◌, ◌%◌, ◌≤◌, length};
ghost use Rattle.cipher.specs.Lengths.{round_length};
ghost use Rattle.lists.specs.Blocks.{block_length, block_of, block_before};
ghost use Rattle.lists.specs.Tabulation.{chunks};
ghost use Rattle.cipher.specs.Tables.{table_fold};
ghost use Rattle.reading.specs.Tables.{read_round, read_rounds};
ghost use Rattle.reading.specs.Book.{reading_round_at};

use crate::round::step;
use cipher::block::{block_at, put_block};
use cipher::lengths;
use table_reader::entry::RoundTables;
use table_reader::fold::{FoldGroup, fold};

// The blocks of out through a round by its tables t.
fn round_of(t: &RoundTables, out: &mut [u8])
    requires { length out.old % block_length ≡ 0 }
    ensures { out.new ≡ chunks (length out.old / block_length) (λ k. read_round t.now (block_of out.old k)) }
{
    // By index: after as_chunks_mut or chunks_exact_mut a proof knows the blocks' length and not their bytes.
    for k in 0..out.len() / lengths::BLOCK {
        let at = lengths::BLOCK * k;
        let to = at + lengths::BLOCK;
        step(t, &mut out[at..to]);
    }
}

// The blocks of out through the first r rounds of a reading book.
pub fn rounds(book: &[u8], r: usize, out: &mut [u8])
    requires { (r ≤ 32) × (round_length * r ≤ length book.now) × (length out.old % block_length ≡ 0) }
    ensures { out.new ≡ chunks (length out.old / block_length) (λ k. read_rounds (reading_round_at book.now) r (block_of out.old k)) }
{
    let (tables, _) = book.as_chunks::<{ lengths::ROUND_TABLES }>();
    for t in &tables[..r] {
        round_of(t, out);
    }
}

// Each block of out folded, by the group f, with the block of the sealed text that stands before its
// place, the IV for the first.
pub fn folds(f: &FoldGroup, iv: [u8; 16], sealed: &[u8], out: &mut [u8])
    requires { (length sealed.now ≡ length out.old) × (length out.old % block_length ≡ 0) }
    ensures { out.new ≡ chunks (length out.old / block_length) (λ k. table_fold f.now (block_of out.old k) (block_before iv sealed.now k)) }
{
    let mut before = iv;
    let (blocks, _) = sealed.as_chunks::<{ lengths::BLOCK }>();
    for (k, block) in blocks.iter().enumerate() {
        let at = lengths::BLOCK * k;
        put_block(out, at, fold(f, block_at(out, at), before));
        before = *block;
    }
}
