// Reading a sealed text by a reading book (document 02, 2026-01). It refuses a book of another length (6),
// an IV that is not of 16 bytes (7), a text that is empty, too long or not of whole blocks (8), a buffer
// shorter than the text (9).
ghost use Rattle.std.specs.Prelude.{◌≡◌, ◌%◌, length};
ghost use Rattle.cipher.specs.KeySize as S;
ghost use Rattle.cipher.specs.Refusal.{written_of};
ghost use Rattle.lists.specs.Blocks.{block_length};
ghost use Rattle.reading.specs.Book.{reading_book_length};
ghost use Rattle.reading.specs.Shown.{read_text};
ghost use Rattle.reader.specs.Answers.{read_answer};

use crate::blocks::{folds, rounds};
use cipher::block::{bad_text, block_at};
use cipher::lengths;
use cipher::refusal::Refusal;
use cipher::size::KeySize;
use reading::lengths::of_reading_len;

// A text copied into a buffer of its length, by a loop as in inkfile's `put`.
fn copy(text: &[u8], out: &mut [u8])
    requires { length out.old ≡ length text.now }
    ensures { out.new ≡ text.now }
{
    for (k, byte) in out.iter_mut().enumerate() {
        *byte = text[k];
    }
}

// A sealed text of whole blocks read from an IV into a buffer of its length.
fn read_blocks(size: KeySize, book: &[u8], iv: [u8; 16], sealed: &[u8], out: &mut [u8])
    requires { (length book.now ≡ reading_book_length size) × (length sealed.now % block_length ≡ 0) × (length out.old ≡ length sealed.now) }
    ensures { out.new ≡ read_text book.now (S.rounds size) iv sealed.now }
{
    let r = size.rounds();
    let at = lengths::ROUND_TABLES * r;
    copy(sealed, out);
    rounds(book, r, out);
    let (groups, _) = book[at..].as_chunks::<{ lengths::GROUP }>();
    folds(&groups[0], iv, sealed, out);
}

// A sealed text read by a reading book from an IV, into the front of out.
pub fn read(book: &[u8], iv: &[u8], sealed: &[u8], out: &mut [u8]) -> Result<usize, Refusal>
    ensures { (written_of result, out.new) ≡ read_answer book.now iv.now sealed.now out.old }
{
    let size = of_reading_len(book.len()).ok_or(Refusal::BookLength)?;
    if iv.len() != lengths::BLOCK {
        return Err(Refusal::BlockLength);
    }
    let n = sealed.len();
    if bad_text(n) {
        return Err(Refusal::MessageLength);
    }
    if out.len() < n {
        return Err(Refusal::ShortBuffer);
    }
    read_blocks(size, book, block_at(iv, 0), sealed, &mut out[0..n]);
    Ok(n)
}
