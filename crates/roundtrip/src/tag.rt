// The tag of a message made by a session and checked, from a key, a chain and plain buffers.
// The schedule stays a number, as the C interface has it.
ghost use Rattle.std.specs.Prelude.{◌≡◌, ◌*◌, ◌≤◌, length};
ghost use Rattle.lists.specs.Blocks.{block_length};
ghost use Rattle.archive.specs.Archive.{checked_told};
ghost use Rattle.roundtrip.specs.Steps.{after_blocks, tag_by, coded_checked};
ghost use Rattle.roundtrip.specs.Roundtrips.{tag_roundtrip};

use crate::start::{Parts, start};
use archive::check::{Verdict, check};
use cipher::lengths;
use cipher::refusal::Refusal;
use driver::session::{Session, begin, block_call, last_call, spent};
use pad::code::code_for_tag;

// The session after the block calls with the first n blocks of a text: a call that is refused leaves
// it as it was.
fn call_blocks(s: Session, book: &[u8], coded: &[u8], n: usize) -> Session
    requires { block_length * n ≤ length coded.now }
    ensures { result ≡ after_blocks book.now coded.now n s }
{
    let (blocks, _) = coded.as_chunks::<{ lengths::BLOCK }>();
    let mut t = s;
    for block in blocks[..n].iter() {
        let next = block_call(t, book, block).unwrap_or(t);
        t = next;
    }
    t
}

// The tag of a text: a block call for every block but the last, and the last call with the kind. No
// call's refusal is looked for: with a book that was built and a message's code there is none, by
// claims' `calls_accepted`.
fn tag_of(book: &[u8], coded: &[u8], kind: u8) -> [u8; 16]
    requires { block_length ≤ length coded.now }
    ensures { result ≡ tag_by book.now coded.now kind }
{
    let fresh = begin(book).unwrap_or(spent());
    let n = coded.len() / lengths::BLOCK - 1;
    let s = call_blocks(fresh, book, coded, n);
    let at = lengths::BLOCK * n;
    let Ok(last) = last_call(s, book, &coded[at..at + lengths::BLOCK], kind) else {
        return [0u8; 16];
    };
    let tag = last.0;
    tag
}

// A message coded by the set u, tagged and checked.
fn code_check(parts: &Parts, message: &[u8], coded: &mut [u8]) -> Result<Verdict, Refusal>
    ensures { let p = parts.now in (checked_told result, coded.new)
        ≡ coded_checked p.schedule p.key.now p.u.now p.set.now p.book.now message.now coded.old }
{
    let code = code_for_tag(parts.u, message, coded)?;
    let tag = tag_of(parts.book, &coded[0..code.length], code.kind);
    check(parts.schedule, parts.key, parts.set, message, &tag)
}

// The round trip of a tag: a book is built, the message coded, its blocks given to a session, and the tag
// checked. It is valid. The buffers are scratch: where coding refuses, the book stays in its own.
pub fn tag_roundtrip(
    schedule: u8,
    key: &[u8],
    chain: &[u8],
    message: &[u8],
    book: &mut [u8],
    coded: &mut [u8],
) -> Result<Verdict, Refusal>
    ensures { (checked_told result, (book.new, coded.new)) ≡ tag_roundtrip schedule key.now chain.now message.now book.old coded.old }
{
    let size = start(schedule, key, chain, book)?;
    let parts = Parts::of(schedule, key, size, chain, &*book);
    code_check(&parts, message, coded)
}
