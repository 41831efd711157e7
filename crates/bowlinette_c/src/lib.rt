// The C interface, for the static library that C programs link: each function calls the one of its name in crate
// `bowlinette` and promises the same; include/bowlinette.h declares it. Every function answers 0, or the number of
// a refusal, in which case nothing behind a pointer has changed. Where there is a key, `schedule` in front of
// it is 0 for LEA's own and 1 for WF-LEA's; any other number is refused before all else (34).

#![tactic(auto)]

ghost use Rattle.std.specs.Prelude.{◌≡◌};
ghost use Rattle.cipher.specs.Answers.{encipher_answer, decipher_answer, rounds_answer, row_answer, set_checked, chain_checked};
ghost use Rattle.bowlinette.specs.Into.{into, kept, valid_only};
ghost use Rattle.book.specs.Answers.{build_answer, build_round_answer};
ghost use Rattle.pad.specs.Answers.{sealing_answer, tag_answer};
ghost use Rattle.driver.specs.Driver as D;
ghost use Rattle.archive.specs.Archive as R;

mod chains; // chains.rt: chains from random bytes
mod ink; // ink.rt: ink files
mod review; // review.rt: reading tables
mod session; // session.rt: the tag session

// A block enciphered under a key, into out.
#[unsafe(no_mangle)]
pub extern "C" fn bowlinette_encipher(
    schedule: u8,
    key: &[u8],
    block: &[u8],
    out: &mut [u8; 16],
) -> u32
    ensures { (result, out.new) ≡ into (encipher_answer schedule key.now block.now) out.old }
{
    bowlinette::bowlinette_encipher(schedule, key, block, out)
}

// A block deciphered under a key, into out.
#[unsafe(no_mangle)]
pub extern "C" fn bowlinette_decipher(
    schedule: u8,
    key: &[u8],
    block: &[u8],
    out: &mut [u8; 16],
) -> u32
    ensures { (result, out.new) ≡ into (decipher_answer schedule key.now block.now) out.old }
{
    bowlinette::bowlinette_decipher(schedule, key, block, out)
}

// A block after the first rounds under a key, all of them where the count is more, into out.
#[unsafe(no_mangle)]
pub extern "C" fn bowlinette_first_rounds(
    schedule: u8,
    key: &[u8],
    rounds: usize,
    block: &[u8],
    out: &mut [u8; 16],
) -> u32
    ensures { (result, out.new) ≡ into (rounds_answer schedule key.now rounds block.now) out.old }
{
    bowlinette::bowlinette_first_rounds(schedule, key, rounds, block, out)
}

// The six round keys of a round of a key, the round taken mod its rounds, into row.
#[unsafe(no_mangle)]
pub extern "C" fn bowlinette_round_keys(
    schedule: u8,
    key: &[u8],
    round: usize,
    row: &mut [u32; 6],
) -> u32
    ensures { (result, row.new) ≡ into (row_answer schedule key.now round) row.old }
{
    bowlinette::bowlinette_round_keys(schedule, key, round, row)
}

// Whether a set that comes alone is one.
#[unsafe(no_mangle)]
pub extern "C" fn bowlinette_check_set(set: &[u8]) -> u32
    ensures { result ≡ set_checked set.now }
{
    bowlinette::bowlinette_check_set(set)
}

// Whether a chain is one for a key of n bytes.
#[unsafe(no_mangle)]
pub extern "C" fn bowlinette_check_chain(n: usize, chain: &[u8]) -> u32
    ensures { result ≡ chain_checked n chain.now }
{
    bowlinette::bowlinette_check_chain(n, chain)
}

// The book of a key and a chain, into the front of out.
#[unsafe(no_mangle)]
pub extern "C" fn bowlinette_build(schedule: u8, key: &[u8], chain: &[u8], out: &mut [u8]) -> u32
    ensures { (result, out.new) ≡ build_answer schedule key.now chain.now out.old }
{
    bowlinette::bowlinette_build(schedule, key, chain, out)
}

// The tables of one round of that book, the round taken mod its rounds, into the front of out.
#[unsafe(no_mangle)]
pub extern "C" fn bowlinette_build_round(
    schedule: u8,
    key: &[u8],
    chain: &[u8],
    round: usize,
    out: &mut [u8],
) -> u32
    ensures { (result, out.new) ≡ build_round_answer schedule key.now chain.now round out.old }
{
    bowlinette::bowlinette_build_round(schedule, key, chain, round, out)
}

// A message coded for sealing by the set u, into the front of out, and the length of that into
// length.
#[unsafe(no_mangle)]
pub extern "C" fn bowlinette_code_for_sealing(
    u: &[u8],
    message: &[u8],
    out: &mut [u8],
    length: &mut u64,
) -> u32
    ensures { ((result, length.new), out.new) ≡ kept (sealing_answer u.now message.now out.old) length.old }
{
    bowlinette::bowlinette_code_for_sealing(u, message, out, length)
}

// A message coded for a tag by the set u, into the front of out, the length of that into length,
// and its kind into kind.
#[unsafe(no_mangle)]
pub extern "C" fn bowlinette_code_for_tag(
    u: &[u8],
    message: &[u8],
    out: &mut [u8],
    length: &mut u64,
    kind: &mut u8,
) -> u32
    ensures { ((result, (length.new, kind.new)), out.new) ≡ kept (tag_answer u.now message.now out.old) (length.old, kind.old) }
{
    bowlinette::bowlinette_code_for_tag(u, message, out, length, kind)
}

// A block by the tables of one round, into out.
#[unsafe(no_mangle)]
pub extern "C" fn bowlinette_run_round(tables: &[u8], block: &[u8], out: &mut [u8; 16]) -> u32
    ensures { (result, out.new) ≡ into (D.run_round_answer tables.now block.now) out.old }
{
    bowlinette::bowlinette_run_round(tables, block, out)
}

// A block by the first rounds of a book, all of them where the count is more, into out.
#[unsafe(no_mangle)]
pub extern "C" fn bowlinette_run_rounds(
    book: &[u8],
    rounds: usize,
    block: &[u8],
    out: &mut [u8; 16],
) -> u32
    ensures { (result, out.new) ≡ into (D.run_rounds_answer book.now rounds block.now) out.old }
{
    bowlinette::bowlinette_run_rounds(book, rounds, block, out)
}

// A coded message sealed by a book from a coded IV, into the front of out, and the length of that
// into length.
#[unsafe(no_mangle)]
pub extern "C" fn bowlinette_seal(
    book: &[u8],
    iv: &[u8],
    coded: &[u8],
    out: &mut [u8],
    length: &mut u64,
) -> u32
    ensures { ((result, length.new), out.new) ≡ kept (D.seal_answer book.now iv.now coded.now out.old) length.old }
{
    bowlinette::bowlinette_seal(book, iv, coded, out, length)
}

// A sealed file opened under a key with its set r and its IV: the message into the front of out,
// and its length into length.
#[unsafe(no_mangle)]
pub extern "C" fn bowlinette_open(
    schedule: u8,
    key: &[u8],
    set: &[u8],
    iv: &[u8],
    sealed: &[u8],
    out: &mut [u8],
    length: &mut u64,
) -> u32
    ensures { ((result, length.new), out.new) ≡ kept (R.open_answer schedule key.now set.now iv.now sealed.now out.old) length.old }
{
    bowlinette::bowlinette_open(schedule, key, set, iv, sealed, out, length)
}

// Whether a tag, coded by set r, is that of a message under a key: 1 for Valid, 0 for Invalid, into
// valid.
#[unsafe(no_mangle)]
pub extern "C" fn bowlinette_check(
    schedule: u8,
    key: &[u8],
    set: &[u8],
    message: &[u8],
    tag: &[u8],
    valid: &mut u8,
) -> u32
    ensures { (result, valid.new) ≡ into (R.check_answer schedule key.now set.now message.now tag.now) valid.old }
{
    bowlinette::bowlinette_check(schedule, key, set, message, tag, valid)
}

// Whether a tag is Valid for a message: 1 for Valid, 0 for Invalid and for every refusal.
#[unsafe(no_mangle)]
pub extern "C" fn bowlinette_is_valid(
    schedule: u8,
    key: &[u8],
    set: &[u8],
    message: &[u8],
    tag: &[u8],
) -> u32
    ensures { result ≡ valid_only (R.check_answer schedule key.now set.now message.now tag.now) }
{
    bowlinette::bowlinette_is_valid(schedule, key, set, message, tag)
}
