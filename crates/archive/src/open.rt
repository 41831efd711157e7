// Opening a sealed file (document 01, "Pad, driver, archive").
ghost use Rattle.std.specs.Prelude.{◌≡◌, ◌++◌, ◌+◌, ◌/◌, ◌%◌, ◌<◌, ◌≤◌, length, take, drop};
ghost use Rattle.cipher.specs.Lengths.{longest_code};
ghost use Rattle.lists.specs.Blocks.{block_length};
ghost use Rattle.lists.specs.Tabulation.{chunks};
ghost use Rattle.cipher.specs.Refusal.{written_of};
ghost use Rattle.cipher.specs.Coding.{inverted};
ghost use Rattle.cipher.specs.Images.{images_of};
ghost use Rattle.cipher.specs.Chain.{LoneSet};
ghost use Rattle.archive.specs.Opened.{opened_of};
ghost use Rattle.archive.specs.Archive as R;

use crate::blocks::Sealed;
use crate::padding::padding;
use cipher::block::{bad_text, block_at};
use cipher::chain::check_set;
use cipher::image::{Images, images};
use cipher::invert::invert;
use cipher::lengths;
use cipher::refusal::Refusal;
use cipher::schedules::Key;

// What each byte of a block decodes to in its place, by a set.
fn decodings(set: &[u8], table: &mut Images)
    requires { LoneSet set.now }
    ensures { table.new ≡ images_of (inverted 32 set.now) }
{
    let mut codes = [0u8; lengths::SET];
    invert(set, lengths::SET_CODINGS, &mut codes);
    images(&codes, table);
}

// A sealed text opened into the front of out, its padding taken off. The padding is judged before
// anything is written.
fn open_text(sealed: &Sealed, out: &mut [u8]) -> Result<usize, Refusal>
    requires { let n = length sealed.now.text.now in (0 < n) × (n ≤ longest_code) × (n % block_length ≡ 0) × (n ≤ length out.old) }
    ensures { (written_of result, out.new) ≡ R.text_answer (chunks (length sealed.now.text.now / block_length) (opened_of sealed.now)) out.old }
{
    let n = sealed.text.len();
    let k = n / lengths::BLOCK - 1;
    let last = sealed.open_block(k);
    let v = padding(last).ok_or(Refusal::BadPadding)?;
    sealed.open_blocks(k, out);
    let at = lengths::BLOCK * k;
    let left = lengths::BLOCK - v;
    out[at..at + left].copy_from_slice(&last[0..left]);
    Ok(n - v)
}

// A sealed file opened under a key, with its set r and its IV: the message into the front of out. The
// parameters are those of the C interface.
pub fn open(
    schedule: u8,
    key: &[u8],
    set: &[u8],
    iv: &[u8],
    file: &[u8],
    out: &mut [u8],
) -> Result<usize, Refusal>
    ensures { (written_of result, out.new) ≡ R.open_answer schedule key.now set.now iv.now file.now out.old }
{
    let key = Key::of(schedule, key)?;
    check_set(set)?;
    if iv.len() != lengths::BLOCK {
        return Err(Refusal::BlockLength);
    }
    if bad_text(file.len()) {
        return Err(Refusal::MessageLength);
    }
    if out.len() < file.len() {
        return Err(Refusal::ShortBuffer);
    }
    let keys = key.round_keys();
    let mut table = [0u8; lengths::IMAGES];
    decodings(set, &mut table);
    let sealed = Sealed {
        keys,
        table: &table,
        iv: block_at(iv, 0),
        text: file,
    };
    open_text(&sealed, out)
}
