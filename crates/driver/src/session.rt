// The tag session, by value: a call gets the session and gives the one after it. Where a call is
// refused there is none, and the caller's own is as it was.
ghost use Rattle.std.specs.Prelude.{◌≡◌};
ghost use Rattle.driver.specs.Driver as D;
ghost use Rattle.driver.specs.declared.session.Session as S;

use crate::admit::Book;
use crate::pass::pass;
use cipher::block::block_at;
use cipher::lengths;
use cipher::refusal::Refusal;

// A session: the block so far, how many block calls were taken, and whether the last call was.
// The flag stays beside them: a finished session keeps block and count, and C's record has all three.
#[derive(Clone, Copy, Debug, PartialEq, Eq)]
pub struct Session {
    pub block: [u8; 16],
    pub taken: u16,
    pub finished: bool,
}

// A finished session of zeros, which takes no call: it stands where there is none.
pub fn spent() -> Session
    ensures { result ≡ D.spent }
{
    Session {
        block: [0u8; 16],
        taken: 0,
        finished: true,
    }
}

// A fresh session on a book, in place of none or of any session.
pub fn begin(book: &[u8]) -> Result<Session, Refusal>
    ensures first { D.session_told result D.spent ≡ D.begin_answer book.now }
    ensures over { (s : S.Session) → D.session_told result s ≡ D.begun_over book.now s }
{
    let parts = Book::admit(book)?;
    let start = block_at(parts.body, 0);
    Ok(Session {
        block: start,
        taken: 0,
        finished: false,
    })
}

// A block call.
pub fn block_call(s: Session, book: &[u8], block: &[u8]) -> Result<Session, Refusal>
    ensures { D.session_told result s ≡ D.block_answer book.now block.now s }
{
    let parts = Book::admit(book)?;
    if block.len() != lengths::BLOCK {
        return Err(Refusal::BlockLength);
    }
    if s.finished {
        return Err(Refusal::SessionFinished);
    }
    if s.taken == 65535 {
        return Err(Refusal::SessionFull);
    }
    let held = s.block;
    let next = pass(parts.size, parts.body, 0, held, block_at(block, 0));
    Ok(Session {
        block: next,
        taken: s.taken + 1,
        ..s
    })
}

// A last call: a tag, and the session after it. The kind stays a byte: a wrong one is refused (10) only
// after the book (6, 33) and the block (7), and a type would refuse it before.
pub fn last_call(
    s: Session,
    book: &[u8],
    block: &[u8],
    kind: u8,
) -> Result<([u8; 16], Session), Refusal>
    ensures { D.tag_told result s ≡ D.last_answer book.now block.now kind s }
{
    let parts = Book::admit(book)?;
    if block.len() != lengths::BLOCK {
        return Err(Refusal::BlockLength);
    }
    if kind > 1 {
        return Err(Refusal::KindByte);
    }
    if s.finished {
        return Err(Refusal::SessionFinished);
    }
    let group = kind as usize + 1;
    let held = s.block;
    let tag = pass(parts.size, parts.body, group, held, block_at(block, 0));
    let after = Session {
        finished: true,
        ..s
    };
    Ok((tag, after))
}
