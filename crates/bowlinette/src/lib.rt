// What the C interface does: crate `bowlinette_c` exports each function named `bowlinette_..` to C, and
// include/bowlinette.h declares the same. Each of these answers 0, or the number of a refusal, in which case
// nothing behind a reference has changed. Where there is a key, `schedule` in front of it is 0 for LEA's own and 1
// for WF-LEA's; any other number is refused before all else (34).

#![tactic(auto)]

ghost use Rattle.std.specs.Prelude.{◌≡◌, Ok};
ghost use Rattle.cipher.specs.Answers.{encipher_answer, decipher_answer, rounds_answer, row_answer, set_checked, chain_checked};
ghost use Rattle.cipher.specs.Refusal.{written_of};
ghost use Rattle.bowlinette.specs.Into.{into, delivered, kept, valid_only};
ghost use Rattle.book.specs.Answers.{build_answer, build_round_answer};
ghost use Rattle.pad.specs.Answers.{sealing_answer, tag_answer};
ghost use Rattle.driver.specs.Driver as D;
ghost use Rattle.archive.specs.Archive as R;

use archive::check::Verdict;
use cipher::refusal::{Refusal, number};

pub mod chains; // chains.rt: chains from random bytes
pub mod ink; // ink.rt: ink files
pub mod review; // review.rt: reading tables
pub mod session; // session.rt: the tag session

// What an operation gave into `to`, and 0, or the number of its refusal.
pub fn deliver<T: Copy>(given: Result<T, Refusal>, to: &mut T) -> u32
    ensures { (result, to.new) ≡ delivered given to.old }
{
    match given {
        Ok(value) => {
            *to = value;
            0
        }
        Err(why) => why.into(),
    }
}

// How many bytes were written into length, and the number.
pub fn deliver_length(written: Result<usize, Refusal>, length: &mut u64) -> u32
    ensures { (result, length.new) ≡ into (written_of written) length.old }
{
    deliver(written.map(|n| n as u64), length)
}

// A verdict as a byte: 1 for Valid, 0 for Invalid.
fn byte_of(verdict: Verdict) -> u8
    ensures { R.checked_told (Ok verdict) ≡ (0, result) }
{
    match verdict {
        Verdict::Valid => 1,
        Verdict::Invalid => 0,
    }
}

// A verdict into valid, 1 for Valid, 0 for Invalid, and the number.
pub fn deliver_verdict(checked: Result<Verdict, Refusal>, valid: &mut u8) -> u32
    ensures { (result, valid.new) ≡ into (R.checked_told checked) valid.old }
{
    deliver(checked.map(byte_of), valid)
}

// A block enciphered under a key, into out.
pub fn bowlinette_encipher(schedule: u8, key: &[u8], block: &[u8], out: &mut [u8; 16]) -> u32
    ensures { (result, out.new) ≡ into (encipher_answer schedule key.now block.now) out.old }
{
    deliver(cipher::lea::encipher(schedule, key, block), out)
}

// A block deciphered under a key, into out.
pub fn bowlinette_decipher(schedule: u8, key: &[u8], block: &[u8], out: &mut [u8; 16]) -> u32
    ensures { (result, out.new) ≡ into (decipher_answer schedule key.now block.now) out.old }
{
    deliver(cipher::lea::decipher(schedule, key, block), out)
}

// A block after the first rounds under a key, all of them where the count is more, into out.
pub fn bowlinette_first_rounds(
    schedule: u8,
    key: &[u8],
    rounds: usize,
    block: &[u8],
    out: &mut [u8; 16],
) -> u32
    ensures { (result, out.new) ≡ into (rounds_answer schedule key.now rounds block.now) out.old }
{
    deliver(cipher::lea::first_rounds(schedule, key, rounds, block), out)
}

// The six round keys of a round of a key, the round taken mod its rounds, into row.
pub fn bowlinette_round_keys(schedule: u8, key: &[u8], round: usize, row: &mut [u32; 6]) -> u32
    ensures { (result, row.new) ≡ into (row_answer schedule key.now round) row.old }
{
    deliver(cipher::lea::round_keys(schedule, key, round), row)
}

// Whether a set that comes alone is one.
pub fn bowlinette_check_set(set: &[u8]) -> u32
    ensures { result ≡ set_checked set.now }
{
    number(cipher::chain::check_set(set))
}

// Whether a chain is one for a key of n bytes.
pub fn bowlinette_check_chain(n: usize, chain: &[u8]) -> u32
    ensures { result ≡ chain_checked n chain.now }
{
    number(cipher::chain::check_chain(n, chain))
}

// The book of a key and a chain, into the front of out.
pub fn bowlinette_build(schedule: u8, key: &[u8], chain: &[u8], out: &mut [u8]) -> u32
    ensures { (result, out.new) ≡ build_answer schedule key.now chain.now out.old }
{
    number(book::build::build(schedule, key, chain, out))
}

// The tables of one round of that book, the round taken mod its rounds, into the front of out.
pub fn bowlinette_build_round(
    schedule: u8,
    key: &[u8],
    chain: &[u8],
    round: usize,
    out: &mut [u8],
) -> u32
    ensures { (result, out.new) ≡ build_round_answer schedule key.now chain.now round out.old }
{
    number(book::build::build_round(schedule, key, chain, round, out))
}

// A message coded for sealing by the set u, into the front of out, and the length of that into
// length.
pub fn bowlinette_code_for_sealing(
    u: &[u8],
    message: &[u8],
    out: &mut [u8],
    length: &mut u64,
) -> u32
    ensures { ((result, length.new), out.new) ≡ kept (sealing_answer u.now message.now out.old) length.old }
{
    deliver_length(pad::code::code_for_sealing(u, message, out), length)
}

// A message coded for a tag by the set u, into the front of out, the length of that into length,
// and its kind into kind.
pub fn bowlinette_code_for_tag(
    u: &[u8],
    message: &[u8],
    out: &mut [u8],
    length: &mut u64,
    kind: &mut u8,
) -> u32
    ensures { ((result, (length.new, kind.new)), out.new) ≡ kept (tag_answer u.now message.now out.old) (length.old, kind.old) }
{
    match pad::code::code_for_tag(u, message, out) {
        Ok(code) => {
            *length = code.length as u64;
            *kind = code.kind;
            0
        }
        Err(why) => why.into(),
    }
}

// A block by the tables of one round, into out.
pub fn bowlinette_run_round(tables: &[u8], block: &[u8], out: &mut [u8; 16]) -> u32
    ensures { (result, out.new) ≡ into (D.run_round_answer tables.now block.now) out.old }
{
    deliver(driver::run::run_round(tables, block), out)
}

// A block by the first rounds of a book, all of them where the count is more, into out.
pub fn bowlinette_run_rounds(book: &[u8], rounds: usize, block: &[u8], out: &mut [u8; 16]) -> u32
    ensures { (result, out.new) ≡ into (D.run_rounds_answer book.now rounds block.now) out.old }
{
    deliver(driver::run::run_rounds(book, rounds, block), out)
}

// A coded message sealed by a book from a coded IV, into the front of out, and the length of that
// into length.
pub fn bowlinette_seal(
    book: &[u8],
    iv: &[u8],
    coded: &[u8],
    out: &mut [u8],
    length: &mut u64,
) -> u32
    ensures { ((result, length.new), out.new) ≡ kept (D.seal_answer book.now iv.now coded.now out.old) length.old }
{
    deliver_length(driver::seal::seal(book, iv, coded, out), length)
}

// A sealed file opened under a key with its set r and its IV: the message into the front of out,
// and its length into length.
pub fn bowlinette_open(
    schedule: u8,
    key: &[u8],
    set: &[u8],
    iv: &[u8],
    sealed: &[u8],
    out: &mut [u8],
    length: &mut u64,
) -> u32
    ensures { ((result, length.new), out.new) ≡ kept (R.open_answer schedule key.now set.now iv.now sealed.now out.old) length.old }
{
    deliver_length(
        archive::open::open(schedule, key, set, iv, sealed, out),
        length,
    )
}

// Whether a tag, coded by set r, is that of a message under a key: 1 for Valid, 0 for Invalid, into
// valid.
pub fn bowlinette_check(
    schedule: u8,
    key: &[u8],
    set: &[u8],
    message: &[u8],
    tag: &[u8],
    valid: &mut u8,
) -> u32
    ensures { (result, valid.new) ≡ into (R.check_answer schedule key.now set.now message.now tag.now) valid.old }
{
    deliver_verdict(
        archive::check::check(schedule, key, set, message, tag),
        valid,
    )
}

// Whether a tag is Valid for a message: 1 for Valid, 0 for Invalid and for every refusal.
pub fn bowlinette_is_valid(schedule: u8, key: &[u8], set: &[u8], message: &[u8], tag: &[u8]) -> u32
    ensures { result ≡ valid_only (R.check_answer schedule key.now set.now message.now tag.now) }
{
    match archive::check::check(schedule, key, set, message, tag) {
        Ok(Verdict::Valid) => 1,
        Ok(Verdict::Invalid) => 0,
        Err(_) => 0,
    }
}
