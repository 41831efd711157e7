// Checking a tag (document 01, "Pad, driver, archive", its last sentence).
ghost use Rattle.std.specs.Prelude.{◌≡◌, length};
ghost use Rattle.lists.specs.Blocks.{block_length};
ghost use Rattle.archive.specs.Archive as R;

use crate::mac::cmac;
use cipher::block::code_block;
use cipher::chain::check_set;
use cipher::lengths;
use cipher::refusal::Refusal;
use cipher::schedules::Key;

// The verdict on a tag.
#[derive(Clone, Copy, Debug, PartialEq, Eq)]
pub enum Verdict {
    Valid,
    Invalid,
}

// Whether a block is what a slice of 16 bytes holds. All bytes are looked at, and what differs is
// tested once, so that the time does not tell where.
fn same(a: [u8; 16], b: &[u8]) -> bool
    requires { length b.now ≡ block_length }
    ensures { result ≡ R.same_block a b.now }
{
    let differs = a.iter().zip(b.iter()).fold(0, |d, (x, y)| d | (*x ^ *y));
    differs == 0
}

// Whether a tag, coded by set r, is that of a message under a key, or why there is no verdict. The
// message's own tag is coded and compared.
// The schedule stays a number, as the C interface has it.
pub fn check(
    schedule: u8,
    key: &[u8],
    set: &[u8],
    message: &[u8],
    tag: &[u8],
) -> Result<Verdict, Refusal>
    ensures { R.checked_told result ≡ R.check_answer schedule key.now set.now message.now tag.now }
{
    let key = Key::of(schedule, key)?;
    check_set(set)?;
    if tag.len() != lengths::BLOCK {
        return Err(Refusal::BlockLength);
    }
    if lengths::LONGEST_MESSAGE < message.len() {
        return Err(Refusal::MessageLength);
    }
    let mac = cmac(key.round_keys(), message);
    if same(code_block(set, mac), tag) {
        Ok(Verdict::Valid)
    } else {
        Ok(Verdict::Invalid)
    }
}
