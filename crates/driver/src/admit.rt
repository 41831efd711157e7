// A book (01's term) as every operation takes it: what is admitted, and its body, which all below reads.
ghost use Rattle.std.specs.Prelude.{◌≡◌, ◌≤◌, Some, None, IfOk, IfErr, length};
ghost use Rattle.cipher.specs.Lengths.{body_start};
ghost use Rattle.cipher.specs.Book.{book_body};
ghost use Rattle.cipher.specs.Refusal.{number_of};
ghost use Rattle.driver.specs.Driver.{admitted_told, admit_answer, body_length};

use cipher::lengths;
use cipher::refusal::Refusal;
use cipher::size::KeySize;

// The size of a book's key, or why the book is refused: it has the length that goes with some key size,
// else 6, and its first byte is the length of such a key, else 33.
pub fn admit(book: &[u8]) -> Result<KeySize, Refusal>
    ensures { admitted_told result ≡ admit_answer book.now }
{
    let size = KeySize::of_book_len(book.len()).ok_or(Refusal::BookLength)?;
    if usize::from(book[0]) != size.key_len() {
        return Err(Refusal::SizeByte);
    }
    Ok(size)
}

// The body of a book that was admitted.
pub fn body(book: &[u8]) -> &[u8]
    requires { body_start ≤ length book.now }
    ensures { result.now ≡ book_body book.now }
{
    &book[lengths::BODY..]
}

// What the operations have of a book that was admitted: the size of its key, and its body.
#[derive(Clone, Copy)]
pub struct Book<'a> {
    pub size: KeySize,
    pub body: &'a [u8],
    ghost whole: { length body.now ≡ body_length size },
}

impl<'a> Book<'a> {
    // The parts of a book, or why it is refused, as the function `admit` says.
    pub fn admit(book: &'a [u8]) -> Result<Book<'a>, Refusal>
        ensures taken { IfOk result (λ b. (admit_answer book.now ≡ (0, Some b.size)) × (b.body.now ≡ book_body book.now)) }
        ensures refused { IfErr result (λ q. admit_answer book.now ≡ (number_of q, None)) }
    {
        let size = admit(book)?;
        Ok(Book {
            size,
            body: body(book),
        })
    }
}
