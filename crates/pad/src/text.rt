// Texts coded byte by byte, each byte looked up in a table of what it becomes at its place in a block.
ghost use Rattle.std.specs.Prelude.{◌≡◌, ◌++◌, ◌+◌, ◌*◌, ◌≤◌, length, take, drop};
ghost use Rattle.lists.specs.Blocks.{block_length};
ghost use Rattle.cipher.specs.Lengths.{set_length};
ghost use Rattle.cipher.specs.Coding.{LowSet, byte_coded};
ghost use Rattle.cipher.specs.Images.{image_at};
ghost use Rattle.pad.specs.CodedParts.{coded_part};

use cipher::image::{Images, images, look_up};
use cipher::lengths;
use parts::in_parts;

// The first n blocks of a text coded into the front of out.
fn code_blocks(images: &Images, text: &[u8], n: usize, out: &mut [u8])
    requires { (n * block_length ≤ length text.now) × (length text.now ≤ length out.old) }
    ensures { out.new ≡ coded_part (image_at images.now) 0 (take (n * block_length) text.now) ++ drop (n * block_length) out.old }
{
    in_parts(
        &mut out[0..n * lengths::BLOCK],
        lengths::BLOCK,
        n,
        |k, code| {
            let at = k * lengths::BLOCK;
            look_up(images, &text[at..at + lengths::BLOCK], code)
        },
    );
}

// A part of a text, which begins at byte `from` of it, coded into the same places of out.
fn code_part(images: &Images, from: usize, part: &[u8], out: &mut [u8])
    requires { from + length part.now ≤ length out.old }
    ensures { out.new ≡ take from out.old ++ (coded_part (image_at images.now) from part.now ++ drop (from + length part.now) out.old) }
{
    let codes = &mut out[from..from + part.len()];
    for (i, code) in codes.iter_mut().enumerate() {
        *code = images[lengths::BYTES * ((from + i) % lengths::BLOCK) + usize::from(part[i])];
    }
}

// A message and the bytes added to it, coded into the front of out.
pub fn code_text(set: &[u8], message: &[u8], added: &[u8], out: &mut [u8])
    requires { (set_length ≤ length set.now) × LowSet set.now × (length message.now + length added.now ≤ length out.old) }
    ensures { out.new ≡ coded_part (byte_coded set.now) 0 (message.now ++ added.now) ++ drop (length message.now + length added.now) out.old }
{
    let mut table = [0u8; lengths::IMAGES];
    images(set, &mut table);
    let n = message.len() / lengths::BLOCK;
    let whole = n * lengths::BLOCK;
    code_blocks(&table, message, n, out);
    code_part(&table, whole, &message[whole..], out);
    code_part(&table, message.len(), added, out);
}
