// Bytes coded by one look-up: what the two codings of a place in a block make of each byte is worked
// out once (document 01, "Chain of codings": byte k of a block has codings 2k and 2k + 1).
ghost use Rattle.std.specs.Prelude.{◌≡◌, ◌+◌, ◌*◌, ◌<◌, ◌≤◌, length};
ghost use Rattle.lists.specs.Blocks.{block_length};
ghost use Rattle.cipher.specs.Lengths.{images_length, set_length};
ghost use Rattle.lists.specs.Tabulation.{tab};
ghost use Rattle.cipher.specs.Coding.{LowSet, byte_coded};
ghost use Rattle.cipher.specs.Images.{images_of, imaged};

use crate::lengths;
use parts::in_parts;

// What each byte becomes at each place of a block: byte v at place k stands at 256k + v.
pub type Images = [u8; lengths::IMAGES];

// What the sixteen bytes whose high half is h become at place k.
fn image_row(set: &[u8], k: usize, h: usize, out: &mut [u8])
    requires { (k < block_length) × (h < 16) × (set_length ≤ length set.now) × LowSet set.now × (length out.old ≡ 16) }
    ensures { out.new ≡ tab 16 (λ l. byte_coded set.now k (16 * h + l)) }
{
    let at = 2 * lengths::CODING * k;
    let high = 16 * set[at + lengths::CODING + h];
    for (l, code) in out.iter_mut().enumerate() {
        *code = set[at + l] + high;
    }
}

// What each byte becomes at each place.
pub fn images(set: &[u8], out: &mut [u8])
    requires { (set_length ≤ length set.now) × LowSet set.now × (length out.old ≡ images_length) }
    ensures { out.new ≡ images_of set.now }
{
    in_parts(out, lengths::VALUES, lengths::BYTES, |r, row| {
        image_row(set, r / lengths::VALUES, r % lengths::VALUES, row)
    });
}

// One block coded by such a table. Here and in images a table is a slice with a length, and so is a set
// (block.rt), since CLAIMS names these functions: an array would ask more of their callers.
pub fn look_up(images: &[u8], block: &[u8], out: &mut [u8])
    requires { (length images.now ≡ images_length) × (length block.now ≡ block_length) × (length out.old ≡ block_length) }
    ensures { out.new ≡ imaged images.now block.now }
{
    for (k, code) in out.iter_mut().enumerate() {
        *code = images[lengths::BYTES * k + usize::from(block[k])];
    }
}
