// Sealing: coded blocks in a chain from an IV (document 01, "Pad, driver, archive").
ghost use Rattle.std.specs.Prelude.{◌≡◌, ◌*◌, ◌/◌, ◌≤◌, ◌++◌, length, drop};
ghost use Rattle.lists.specs.Blocks.{block_length};
ghost use Rattle.cipher.specs.Refusal.{written_of};
ghost use Rattle.driver.specs.Driver as D;

use crate::admit::Book;
use crate::pass::pass;
use cipher::block::{bad_text, block_at, put_block};
use cipher::lengths;
use cipher::refusal::Refusal;

// The whole blocks of a coded text sealed into the front of out.
fn seal_blocks(book: &Book, iv: [u8; 16], coded: &[u8], out: &mut [u8])
    requires { length coded.now ≤ length out.old }
    ensures { out.new ≡ D.sealed book.now.body.now iv coded.now ++ drop (block_length * (length coded.now / block_length)) out.old }
{
    let (size, body) = (book.size, book.body);
    let mut x = iv;
    let (blocks, _) = coded.as_chunks::<{ lengths::BLOCK }>();
    for (k, block) in blocks.iter().enumerate() {
        let y = pass(size, body, 0, x, *block);
        put_block(out, lengths::BLOCK * k, y);
        x = y;
    }
}

// A coded message sealed by a book from a coded IV, into the front of out.
pub fn seal(book: &[u8], iv: &[u8], coded: &[u8], out: &mut [u8]) -> Result<usize, Refusal>
    ensures { (written_of result, out.new) ≡ D.seal_answer book.now iv.now coded.now out.old }
{
    let parts = Book::admit(book)?;
    if iv.len() != lengths::BLOCK {
        return Err(Refusal::BlockLength);
    }
    let n = coded.len();
    if bad_text(n) {
        return Err(Refusal::MessageLength);
    }
    if out.len() < n {
        return Err(Refusal::ShortBuffer);
    }
    seal_blocks(&parts, block_at(iv, 0), coded, out);
    Ok(n)
}
