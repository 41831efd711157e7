// A block through a round of a reading book (document 02, 2026-01): three words turned back, then the new
// words, each from the turned word and the new word before it.
ghost use Rattle.std.specs.Prelude.{◌≡◌, ◌<◌, length};
ghost use Rattle.lists.specs.Blocks.{block_length};
ghost use Rattle.reading.specs.Tables.{read_round};
ghost use Rattle.reader.specs.Round.{Bits, EachIs, turned_bytes};

use crate::turns::turned;
use cipher::lengths::BLOCK;
use reading::lengths;
use table_reader::entry::{RoundTables, joined};
use table_reader::sums::{Two, add_two};

// How many tables of 512 bytes would stand in front of the subtract tables of a round.
const FIRST: usize = lengths::SUBTRACTS / lengths::SUBTRACT;

// Byte m of the new words 1 to 3, each with the borrow out of it.
#[derive(Clone, Copy, Default)]
pub struct ByteOfEach {
    pub word1: Two,
    pub word2: Two,
    pub word3: Two,
}

// Byte m of the three differences by the subtract tables in t, which are read as add tables are: s has
// the words turned back, x is byte m of new word 0, and the borrows come from the bytes before.
fn byte_of_each(t: &RoundTables, s: &[u8; 12], m: usize, x: u8, before: ByteOfEach) -> ByteOfEach
    requires { (m < 4) × Bits before }
    ensures { EachIs t.now s.now m x before result }
{
    let word1 = add_two(t, FIRST + 2 * m, before.word1.carry, s[m], x);
    let word2 = add_two(
        t,
        FIRST + 2 * m + 8,
        before.word2.carry,
        s[m + 4],
        word1.sum,
    );
    let word3 = add_two(
        t,
        FIRST + 2 * m + 16,
        before.word3.carry,
        s[m + 8],
        word2.sum,
    );
    ByteOfEach {
        word1,
        word2,
        word3,
    }
}

// The lent block taken through the round, s being its words turned back: new word 0 is the old word 3,
// and the three differences go side by side, byte by byte, each with its borrow.
fn subtracts(t: &RoundTables, s: &[u8; 12], y: &mut [u8])
    requires { (length y.old ≡ block_length) × (s.now ≡ turned_bytes t.now y.old) }
    ensures { y.new ≡ read_round t.now y.old }
{
    let mut w = ByteOfEach::default();
    // By index: a turn is at one byte of each word, at m, m + 4, m + 8 and m + 12.
    for m in 0..4 {
        let o = y[m + 12];
        let x = joined(o, o / 16);
        w = byte_of_each(t, s, m, x, w);
        y[m + 12] = w.word3.sum;
        y[m] = x;
        y[m + 4] = w.word1.sum;
        y[m + 8] = w.word2.sum;
    }
}

// The lent block taken through a round by its tables t.
pub fn step(t: &RoundTables, y: &mut [u8])
    requires { length y.old ≡ block_length }
    ensures { y.new ≡ read_round t.now y.old }
{
    let (blocks, _) = y.as_chunks::<{ BLOCK }>();
    let s = turned(t, &blocks[0]);
    subtracts(t, &s, y);
}
