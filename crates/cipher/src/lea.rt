// The operations on a key and a block. Each refuses a schedule's number other than 0 and 1 (34), a key of
// no known size (1), then a block that is not of 16 bytes (7). A schedule's number and a key stay side by
// side: so the C interface has them. It has encipher and decipher too, which differ in one call, the one
// in the inverse of the other's.
ghost use Rattle.std.specs.Prelude.{◌≡◌};
ghost use Rattle.cipher.specs.Answers.{block_told, row_told, encipher_answer, decipher_answer, rounds_answer, row_answer};

use crate::lengths;
use crate::refusal::Refusal;
use crate::schedules::Key;
use words::word::{bytes, words};

// A block enciphered under a key.
pub fn encipher(schedule: u8, key: &[u8], block: &[u8]) -> Result<[u8; 16], Refusal>
    ensures { block_told result ≡ encipher_answer schedule key.now block.now }
{
    let key = Key::of(schedule, key)?;
    if block.len() != lengths::BLOCK {
        return Err(Refusal::BlockLength);
    }
    Ok(bytes(key.round_keys().encipher(words(block))))
}

// A block deciphered under a key.
pub fn decipher(schedule: u8, key: &[u8], block: &[u8]) -> Result<[u8; 16], Refusal>
    ensures { block_told result ≡ decipher_answer schedule key.now block.now }
{
    let key = Key::of(schedule, key)?;
    if block.len() != lengths::BLOCK {
        return Err(Refusal::BlockLength);
    }
    Ok(bytes(key.round_keys().decipher(words(block))))
}

// A block after the first n rounds under a key, all of them where n is more.
pub fn first_rounds(schedule: u8, key: &[u8], n: usize, block: &[u8]) -> Result<[u8; 16], Refusal>
    ensures { block_told result ≡ rounds_answer schedule key.now n block.now }
{
    let key = Key::of(schedule, key)?;
    if block.len() != lengths::BLOCK {
        return Err(Refusal::BlockLength);
    }
    let all = key.size.rounds();
    let keys = key.round_keys();
    if n <= all {
        return Ok(bytes(keys.first_rounds(n, words(block))));
    }
    Ok(bytes(keys.encipher(words(block))))
}

// The round keys of round l of a key, l taken mod its rounds.
pub fn round_keys(schedule: u8, key: &[u8], l: usize) -> Result<[u32; 6], Refusal>
    ensures { row_told result ≡ row_answer schedule key.now l }
{
    let key = Key::of(schedule, key)?;
    let keys = key.round_keys();
    Ok(keys.rows[l % key.size.rounds()])
}
