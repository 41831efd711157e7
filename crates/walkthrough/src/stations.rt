// What each station does with an ink file, and prints of it. Round keys are by LEA's own schedule.
use crate::compare::compare;
use crate::made::{CHAIN, Case};
use crate::print::{show, tell};
use archive::check::{Verdict, check};
use archive::open::open;
use book::build::build;
use cipher::lengths;
use cipher::schedules::LEA;
use driver::lending::{begin, block_call, last_call};
use driver::seal::seal;
use driver::session::{Session, spent};
use pad::code::{code_for_sealing, code_for_tag};
use std::io;

// The book of a 16-byte key, which has 24 rounds.
const BOOK: usize = lengths::BODY + lengths::ROUNDS + lengths::ROUND_TABLES * 24;

// The ink file padded to blocks, in bytes.
const CODED: usize = 9424;

// Where the last of the sets of a chain of 24 rounds begins and ends.
const LAST: usize = lengths::SET * 25;

const LAST_END: usize = lengths::SET * 26;

// What the driver sends to the server, and the server to the archive.
#[derive(Clone, Copy)]
pub struct Sent {
    iv: [u8; 16],
    sealed: [u8; CODED],
    tag: [u8; 16],
}

// A buffer for a book.
pub fn book_room() -> [u8; BOOK] {
    [0u8; BOOK]
}

// The works: a book from a key and a chain.
pub fn works(
    rt: &impl Print,
    key: &[u8; 16],
    chain: &[u8; CHAIN],
    book: &mut [u8; BOOK],
) -> io::Result<()> {
    show(rt, "in   key", key)?;
    show(rt, "in   chain", chain)?;
    if let Err(why) = build(LEA, key, chain, book) {
        return tell(rt, "out  book", why);
    }
    show(rt, "out  book", book)?;
    println!(rt;
        "        for a key of {} bytes, as its first byte says",
        book[0]
    )
}

// The pad, which has the message set of the chain: codes the ink for sealing and for a tag, and answers
// the kind of the code for a tag, a byte as the driver takes it. A refusal is printed, and has no kind.
fn pad_codes(
    rt: &impl Print,
    case: &Case,
    for_sealing: &mut [u8; CODED],
    for_tag: &mut [u8; CODED],
) -> io::Result<Option<u8>> {
    let u = &case.chain[..lengths::SET];
    println!(rt; "\nTuesday, at the counter\n2. The pad codes the ink, and has no key")?;
    show(rt, "in   message set", u)?;
    show(rt, "in   ink file", &case.ink)?;
    if let Err(why) = code_for_sealing(u, &case.ink, for_sealing) {
        tell(rt, "out  coded to seal", why)?;
    }
    show(rt, "out  coded to seal", for_sealing)?;
    let Ok(code) = code_for_tag(u, &case.ink, for_tag) else {
        tell(rt, "out  coded for a tag", "refused")?;
        return Ok(None);
    };
    show(rt, "out  coded for a tag", for_tag)?;
    Ok(Some(code.kind))
}

// The driver: seals a coded file.
fn seal_file(
    rt: &impl Print,
    book: &[u8; BOOK],
    iv: &[u8; 16],
    coded: &[u8; CODED],
    sealed: &mut [u8; CODED],
) -> io::Result<()> {
    show(rt, "in   IV", iv)?;
    if let Err(why) = seal(book, iv, coded, sealed) {
        return tell(rt, "out  sealed file", why);
    }
    show(rt, "out  sealed file", sealed)
}

// The session after the block calls for some blocks; a call that is refused leaves it as it was.
fn block_calls(start: Session, book: &[u8; BOOK], blocks: &[u8]) -> Session {
    let mut s = start;
    for block in blocks.chunks_exact(lengths::BLOCK) {
        s = block_call(s, book, block).unwrap_or(s);
    }
    s
}

// The driver: makes the tag of a coded file, on a session that is lent to each call. Where there is no
// kind or the last call refuses, zeros are shown.
fn make_tag(
    rt: &impl Print,
    book: &[u8; BOOK],
    coded: &[u8; CODED],
    kind: Option<u8>,
) -> io::Result<[u8; 16]> {
    let (front, last) = coded.split_at(CODED - lengths::BLOCK);
    let fresh = begin(spent(), book).unwrap_or(spent());
    let s = block_calls(fresh, book, front);
    let made = kind.and_then(|kind| last_call(s, book, last, kind).ok());
    let tag = made.map_or([0u8; 16], |(tag, _)| tag);
    show(rt, "out  tag", &tag)?;
    Ok(tag)
}

// The counter: the pad codes the ink; the driver on the teller's PC seals it and makes its tag.
fn counter(rt: &impl Print, case: &Case, book: &[u8; BOOK]) -> io::Result<Sent> {
    let mut for_sealing = [0u8; CODED];
    let mut for_tag = [0u8; CODED];
    let kind = pad_codes(rt, case, &mut for_sealing, &mut for_tag)?;
    println!(rt; "\n3. The driver has the book and no key: it seals the file and makes its tag")?;
    show(rt, "in   book", book)?;
    let mut sealed = [0u8; CODED];
    seal_file(rt, book, &case.iv, &for_sealing, &mut sealed)?;
    let tag = make_tag(rt, book, &for_tag, kind)?;
    Ok(Sent {
        iv: case.iv,
        sealed,
        tag,
    })
}

// The server: keeps what the driver sends and cannot read it.
fn server(rt: &impl Print, sent: &Sent) -> io::Result<()> {
    println!(rt; "\nTuesday night, on the server\n4. The server keeps what it was sent, unread")?;
    show(rt, "has  IV", &sent.iv)?;
    show(rt, "has  sealed file", &sent.sealed)?;
    show(rt, "has  tag", &sent.tag)
}

// The archive: checks the tag of a message; whether it says Valid. A refusal is no verdict, and says so.
fn judge(rt: &impl Print, case: &Case, message: &[u8], tag: &[u8; 16]) -> io::Result<bool> {
    show(rt, "out  message", message)?;
    compare(rt, message, &case.ink)?;
    match check(LEA, &case.key, &case.chain[LAST..LAST_END], message, tag) {
        Ok(verdict) => {
            println!(rt; "   out  verdict          {verdict:?}")?;
            Ok(verdict == Verdict::Valid)
        }
        Err(why) => {
            println!(rt; "   out  verdict          none: {why}")?;
            Ok(false)
        }
    }
}

// The archive: opens the sealed file and checks the tag of what it held; whether it says Valid. Where
// nothing is opened, there is nothing to check.
fn archive_says(rt: &impl Print, case: &Case, sent: &Sent) -> io::Result<bool> {
    let mut text = [0u8; CODED];
    let set = &case.chain[LAST..LAST_END];
    match open(LEA, &case.key, set, &sent.iv, &sent.sealed, &mut text) {
        Ok(n) => {
            let Some(message) = text.get(..n) else {
                return Ok(false);
            };
            judge(rt, case, message, &sent.tag)
        }
        Err(why) => {
            println!(rt; "   out  message          none: {why}")?;
            tell(
                rt,
                "out  verdict",
                "none: nothing was opened, so no tag was checked",
            )?;
            Ok(false)
        }
    }
}

// The works, the counter and the server, each with its part of the chain; what is sent.
pub fn front(rt: &impl Print, case: &Case) -> io::Result<Sent> {
    println!(rt; "Monday, at the works\n1. The works builds the pad's book")?;
    let mut book = book_room();
    works(rt, &case.key, &case.chain, &mut book)?;
    let sent = counter(rt, case, &book)?;
    server(rt, &sent)?;
    println!(rt; "\nWednesday, at the bank")?;
    Ok(sent)
}

// The bank: the archive, which has the key and the last set, and the loan desk.
pub fn back(rt: &impl Print, case: &Case, sent: &Sent) -> io::Result<()> {
    println!(rt;
        "5. The archive has the key and the last set: it opens the file and checks the tag"
    )?;
    show(rt, "in   sealed file", &sent.sealed)?;
    show(rt, "in   tag", &sent.tag)?;
    if archive_says(rt, case, sent)? {
        println!(rt; "\n6. The loan desk releases the loan")
    } else {
        println!(rt; "\n6. The loan desk releases nothing")
    }
}

// The archive and the loan desk with a bit of the sealed file flipped, in its middle and in the block
// before the last, and with a bit of the tag flipped.
pub fn damaged(rt: &impl Print, case: &Case, sent: &Sent) -> io::Result<()> {
    println!(rt;
        "\nFriday, the file again: bit 2 of byte 4711 of it, in block 294, was flipped on the server"
    )?;
    let mut bad = *sent;
    bad.sealed[4711] ^= 4;
    back(rt, case, &bad)?;
    println!(rt;
        "\nFriday, once more: bit 4 of byte 9407, the last of the block before the last, was flipped"
    )?;
    bad = *sent;
    bad.sealed[9407] ^= 16;
    back(rt, case, &bad)?;
    println!(rt;
        "\nFriday, the file as it was: bit 0 of byte 3 of its tag was flipped on the server"
    )?;
    bad = *sent;
    bad.tag[3] ^= 1;
    back(rt, case, &bad)
}
