// Building a reading book from a key and a reading chain (document 02, 2026-01). Refusals 34 and
// 1 to 5 are those of schedule, key and chain; 9 is a buffer shorter than the book.
// The schedule stays a number, as the C interface has it.
ghost use Rattle.std.specs.Prelude.{◌≡◌, ◌≤◌, length};
ghost use Rattle.lists.specs.Blocks.{zeros};
ghost use Rattle.cipher.specs.KeySize as S;
ghost use Rattle.cipher.specs.Lengths.{set_length, group_length};
ghost use Rattle.cipher.specs.Refusal.{outcome_of};
ghost use Rattle.cipher.specs.Coding.{set_of};
ghost use Rattle.cipher.specs.Book.{group_part};
ghost use Rattle.reading.specs.Chain.{ReadingChain};
ghost use Rattle.reading.specs.Book.{reading_book_of, reading_book_length};
ghost use Rattle.reading_book.specs.Answers.{build_reading_answer};

use crate::rounds::round_parts;
use cipher::chain::check_rule;
use cipher::lengths;
use cipher::refusal::Refusal;
use cipher::rows::RoundKeys;
use cipher::schedules::Key;
use reading::lengths::reading_len;
use table_maker::folds::fold_tables;
use table_maker::inverted::InvertedSet;
use table_maker::sets::ChainSet;

// The group: folds from the sets last and before to the set in the front of first, under no key.
fn group(last: ChainSet, before: ChainSet, first: &[u8], out: &mut [u8])
    requires { (set_length ≤ length first.now) × (length out.old ≡ group_length) }
    ensures { out.new ≡ group_part (set_of last.entry.bytes.now) (set_of before.entry.bytes.now) (set_of first.now) zeros }
{
    let s = InvertedSet::of(last.bytes);
    let u = InvertedSet::of(before.bytes);
    fold_tables(&s, &u, first, [0u8; lengths::BLOCK], out);
}

// The reading book of a valid reading chain, into a buffer of its length. The group folds from set r,
// and from set 0 for the block before, to the message set.
fn fill(keys: RoundKeys, chain: &[u8], out: &mut [u8])
    requires { ReadingChain keys.size chain.now × (length out.old ≡ reading_book_length keys.size) }
    ensures { out.new ≡ reading_book_of (S.rounds keys.size) keys.rows chain.now }
{
    let r = keys.size.rounds();
    let at = lengths::SET * (r + 1);
    let last = ChainSet {
        bytes: &chain[at..],
    };
    let before = ChainSet {
        bytes: &chain[lengths::SET..],
    };
    let from = lengths::ROUND_TABLES * r;
    let end = from + lengths::GROUP;
    round_parts(keys, chain, &mut out[0..from]);
    group(last, before, chain, &mut out[from..end]);
}

// The reading book of a key and a reading chain, into the front of out.
pub fn build_reading(schedule: u8, key: &[u8], chain: &[u8], out: &mut [u8]) -> Result<(), Refusal>
    ensures { (outcome_of result, out.new) ≡ build_reading_answer schedule key.now chain.now out.old }
{
    let key = Key::of(schedule, key)?;
    check_rule(key.size, chain, 3, 0)?;
    let end = reading_len(key.size);
    if out.len() < end {
        return Err(Refusal::ShortBuffer);
    }
    fill(key.round_keys(), chain, &mut out[0..end]);
    Ok(())
}
