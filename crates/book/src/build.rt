// Building a book, or the tables of one round of it, from a key and a chain (document 01, "Book"; 02,
// 2026-05). Refusals 34 and 1 to 5 are those of schedule, key and chain; 9 is a buffer shorter than what
// is written.
// The schedule stays a number, as the C interface has it.
ghost use Rattle.std.specs.Prelude.{◌≡◌, ◌+◌, ◌*◌, length};
ghost use Rattle.cipher.specs.KeySize as S;
ghost use Rattle.cipher.specs.Lengths.{round_length, rounds_start};
ghost use Rattle.cipher.specs.Refusal.{outcome_of};
ghost use Rattle.cipher.specs.Chain.{Chain};
ghost use Rattle.cipher.specs.Book.{book_of};
ghost use Rattle.book.specs.Answers.{build_answer, build_round_answer};

use crate::groups::{groups, start};
use crate::rounds::{round_at, round_parts};
use cipher::chain::check_sized;
use cipher::cmac::subkeys;
use cipher::lengths;
use cipher::refusal::Refusal;
use cipher::rows::RoundKeys;
use cipher::schedules::Key;
use table_maker::sets::ChainSet;

// The body of the book of a valid chain, into a buffer of its length.
fn fill(keys: RoundKeys, chain: &[u8], out: &mut [u8])
    requires { Chain keys.size chain.now × (length out.old ≡ rounds_start + round_length * S.rounds keys.size) }
    ensures { out.new ≡ book_of (S.rounds keys.size) keys.rows chain.now }
{
    let at = lengths::SET * (keys.size.rounds() + 1);
    let last = ChainSet {
        bytes: &chain[at..],
    };
    let message = ChainSet { bytes: chain };
    let end = out.len();
    start(last, &mut out[0..lengths::START]);
    groups(
        last,
        message,
        &chain[lengths::SET..],
        subkeys(keys),
        &mut out[lengths::START..lengths::ROUNDS],
    );
    round_parts(keys, chain, &mut out[lengths::ROUNDS..end]);
}

// The book of a key and a chain, into the front of out: the key's length, then the body.
pub fn build(schedule: u8, key: &[u8], chain: &[u8], out: &mut [u8]) -> Result<(), Refusal>
    ensures { (outcome_of result, out.new) ≡ build_answer schedule key.now chain.now out.old }
{
    let key = Key::of(schedule, key)?;
    check_sized(key.size, chain)?;
    let end = key.size.book_len();
    if out.len() < end {
        return Err(Refusal::ShortBuffer);
    }
    out[0] = key.size.key_len() as u8;
    fill(key.round_keys(), chain, &mut out[lengths::BODY..end]);
    Ok(())
}

// The tables of round l of that book, l taken mod its rounds, into the front of out. It begins as `build`
// does, in three lines: one function with a closure for the rest would be no plainer.
pub fn build_round(
    schedule: u8,
    key: &[u8],
    chain: &[u8],
    l: usize,
    out: &mut [u8],
) -> Result<(), Refusal>
    ensures { (outcome_of result, out.new) ≡ build_round_answer schedule key.now chain.now l out.old }
{
    let key = Key::of(schedule, key)?;
    check_sized(key.size, chain)?;
    if out.len() < lengths::ROUND_TABLES {
        return Err(Refusal::ShortBuffer);
    }
    let at = l % key.size.rounds();
    round_at(
        key.round_keys(),
        chain,
        at,
        &mut out[0..lengths::ROUND_TABLES],
    );
    Ok(())
}
