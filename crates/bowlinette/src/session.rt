// The tag session for C: the caller keeps it as 19 bytes, any bytes being some session.
ghost use Rattle.std.specs.Prelude.{◌≡◌};
ghost use Rattle.driver.specs.Driver as D;
ghost use Rattle.bowlinette.specs.Into.{into};
ghost use Rattle.bowlinette.specs.Session.{session_in, record_of, recorded, tag_recorded};

use crate::deliver;
use cipher::block::block_at;
use driver::session::Session;

// The session in a record.
fn session_in(b: [u8; 19]) -> Session
    ensures { result ≡ session_in b }
{
    let block = block_at(&b, 0);
    Session {
        block,
        taken: u16::from_le_bytes([b[16], b[17]]),
        finished: b[18] != 0,
    }
}

// A session as a record.
fn record_of(s: Session) -> [u8; 19]
    ensures { result ≡ record_of s }
{
    let mut b = [0u8; 19];
    let taken = s.taken.to_le_bytes();
    b[16] = taken[0];
    b[17] = taken[1];
    b[18] = u8::from(s.finished);
    b[0..16].copy_from_slice(&s.block);
    b
}

// A fresh session on a book, into its record. Not by `deliver`: the session then goes over the stack, which took more
// than twice the time.
pub fn bowlinette_begin(s: &mut [u8; 19], book: &[u8]) -> u32
    ensures { (result, s.new) ≡ into (recorded (D.begin_answer book.now)) s.old }
{
    match driver::session::begin(book) {
        Ok(fresh) => {
            let record = record_of(fresh);
            *s = record;
            0
        }
        Err(why) => why.into(),
    }
}

// A block call on the session in a record.
pub fn bowlinette_block_call(s: &mut [u8; 19], book: &[u8], block: &[u8]) -> u32
    ensures { (result, s.new) ≡ into (recorded (D.block_answer book.now block.now (session_in s.old))) s.old }
{
    let held = session_in(*s);
    deliver(
        driver::session::block_call(held, book, block).map(record_of),
        s,
    )
}

// A last call on the session in a record, its tag into tag.
pub fn bowlinette_last_call(
    s: &mut [u8; 19],
    book: &[u8],
    block: &[u8],
    kind: u8,
    tag: &mut [u8; 16],
) -> u32
    ensures { (result, (tag.new, s.new)) ≡ into (tag_recorded (D.last_answer book.now block.now kind (session_in s.old))) (tag.old, s.old) }
{
    let mut held = session_in(*s);
    match driver::lent::last_call(&mut held, book, block, kind) {
        Ok(made) => {
            let record = record_of(held);
            *tag = made;
            *s = record;
            0
        }
        Err(why) => why.into(),
    }
}
