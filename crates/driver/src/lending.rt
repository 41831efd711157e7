// A session lent for one call: it stands in a local, which is lent by &mut to a call of `lent`, and what
// the call left there is handed back, unless it refused. The answers are those of the calls by value.
ghost use Rattle.std.specs.Prelude.{◌≡◌};
ghost use Rattle.driver.specs.Driver as D;

use crate::lent;
use crate::session::Session;
use cipher::refusal::Refusal;

// A fresh session on a book, lent the session s.
pub fn begin(s: Session, book: &[u8]) -> Result<Session, Refusal>
    ensures { D.session_told result s ≡ D.begun_over book.now s }
{
    let mut held = s;
    lent::begin(&mut held, book)?;
    Ok(held)
}

// A block call on the session s, lent.
pub fn block_call(s: Session, book: &[u8], block: &[u8]) -> Result<Session, Refusal>
    ensures { D.session_told result s ≡ D.block_answer book.now block.now s }
{
    let mut held = s;
    lent::block_call(&mut held, book, block)?;
    Ok(held)
}

// A last call on the session s, lent.
pub fn last_call(
    s: Session,
    book: &[u8],
    block: &[u8],
    kind: u8,
) -> Result<([u8; 16], Session), Refusal>
    ensures { D.tag_told result s ≡ D.last_answer book.now block.now kind s }
{
    let mut held = s;
    let tag = lent::last_call(&mut held, book, block, kind)?;
    Ok((tag, held))
}
