// The rounds of a book's body on a block.
ghost use Rattle.std.specs.Prelude.{◌≡◌, ◌+◌, ◌*◌, ◌≤◌, length};
ghost use Rattle.cipher.specs.Lengths.{round_length, rounds_start};
ghost use Rattle.lists.specs.Blocks.{Block};
ghost use Rattle.cipher.specs.Tables.{table_round, table_rounds};
ghost use Rattle.cipher.specs.Book.{round_at};

use crate::entry::RoundTables;
use crate::sums::sums;
use crate::turns::turns;
use cipher::lengths;

// The lent block taken through a round by its tables t.
pub fn step(t: &RoundTables, y: &mut [u8; 16])
    requires { Block y.old }
    ensures { y.new ≡ table_round t.now y.old }
{
    let s = sums(t, *y);
    turns(t, &s, y);
}

// The rounds 0 to n - 1 of a book's body.
pub fn rounds(body: &[u8], n: usize, x: [u8; 16]) -> [u8; 16]
    requires { (n ≤ 32) × (rounds_start + round_length * n ≤ length body.now) }
    ensures { result ≡ table_rounds (round_at body.now) n x }
{
    let mut y = x;
    let (tables, _) = body[lengths::ROUNDS..].as_chunks::<{ lengths::ROUND_TABLES }>();
    for t in &tables[..n] {
        step(t, &mut y);
    }
    y
}
