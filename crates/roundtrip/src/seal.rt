// A message sealed and opened again, from a key, a chain and plain buffers.
// The schedule stays a number, as the C interface has it.
ghost use Rattle.std.specs.Prelude.{◌≡◌};
ghost use Rattle.cipher.specs.Refusal.{written_of};
ghost use Rattle.roundtrip.specs.Steps.{sealed_opened, coded_opened};
ghost use Rattle.roundtrip.specs.Roundtrips.{seal_roundtrip};

use crate::start::{Parts, start};
use archive::open::open;
use cipher::refusal::Refusal;
use driver::seal::seal;
use pad::code::code_for_sealing;

// A coded message sealed by the book, and the sealed file opened.
fn seal_open(
    parts: &Parts,
    iv: &[u8],
    coded: &[u8],
    sealed: &mut [u8],
    out: &mut [u8],
) -> Result<usize, Refusal>
    ensures { let p = parts.now in (written_of result, (sealed.new, out.new))
        ≡ sealed_opened p.schedule p.key.now p.set.now p.book.now iv.now coded.now sealed.old out.old }
{
    let n = seal(parts.book, iv, coded, sealed)?;
    open(parts.schedule, parts.key, parts.set, iv, &sealed[0..n], out)
}

// A message coded by the set u, sealed and opened.
fn code_open(
    parts: &Parts,
    iv: &[u8],
    message: &[u8],
    coded: &mut [u8],
    sealed: &mut [u8],
    out: &mut [u8],
) -> Result<usize, Refusal>
    ensures { let p = parts.now in (written_of result, (coded.new, (sealed.new, out.new)))
        ≡ coded_opened p.schedule p.key.now p.u.now p.set.now p.book.now iv.now message.now coded.old sealed.old out.old }
{
    let n = code_for_sealing(parts.u, message, coded)?;
    seal_open(parts, iv, &coded[0..n], sealed, out)
}

// The round trip of a sealed file: a book is built, the message coded, sealed and opened into the front of
// out. What is there is the message. The other buffers are scratch: a refusal of a later call leaves
// in them what the calls before it wrote.
pub fn seal_roundtrip(
    schedule: u8,
    key: &[u8],
    chain: &[u8],
    iv: &[u8],
    message: &[u8],
    book: &mut [u8],
    coded: &mut [u8],
    sealed: &mut [u8],
    out: &mut [u8],
) -> Result<usize, Refusal>
    ensures { (written_of result, (book.new, coded.new, sealed.new, out.new))
        ≡ seal_roundtrip schedule key.now chain.now iv.now message.now book.old coded.old sealed.old out.old }
{
    let size = start(schedule, key, chain, book)?;
    let parts = Parts::of(schedule, key, size, chain, &*book);
    code_open(&parts, iv, message, coded, sealed, out)
}
