// The tag session lent by &mut: each call takes the session out of the caller's record, makes the
// call by value and puts what that hands back into the record. A refusal leaves the record as it was.
ghost use Rattle.std.specs.Prelude.{◌≡◌};
ghost use Rattle.cipher.specs.Refusal.{outcome_of};
ghost use Rattle.cipher.specs.Answers.{block_told};
ghost use Rattle.driver.specs.Driver as D;

use crate::session::{self, Session};
use cipher::refusal::Refusal;

// A fresh session on a book into the record, whatever it held.
pub fn begin(s: &mut Session, book: &[u8]) -> Result<(), Refusal>
    ensures { (outcome_of result, s.new) ≡ D.begun_over book.now s.old }
{
    *s = session::begin(book)?;
    Ok(())
}

// A block call on the record.
pub fn block_call(s: &mut Session, book: &[u8], block: &[u8]) -> Result<(), Refusal>
    ensures { (outcome_of result, s.new) ≡ D.block_answer book.now block.now s.old }
{
    *s = session::block_call(*s, book, block)?;
    Ok(())
}

// A last call on the record.
pub fn last_call(s: &mut Session, book: &[u8], block: &[u8], kind: u8) -> Result<[u8; 16], Refusal>
    ensures { (block_told result, s.new) ≡ D.last_answer book.now block.now kind s.old }
{
    let (tag, after) = session::last_call(*s, book, block, kind)?;
    *s = after;
    Ok(tag)
}
