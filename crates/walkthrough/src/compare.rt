// How an opened message differs from the pad's ink file, block by block, for people to see.
ghost use Rattle.std.specs.Prelude.{◌≤◌, length};

use cipher::lengths;
use std::io;

// In how many places two files, or two blocks, have different bytes.
fn differ(a: &[u8], b: &[u8]) -> usize
    ensures { result ≤ length a.now }
{
    a.iter().zip(b).filter(|(x, y)| x != y).count()
}

// Whether the message is the pad's ink file, and if not, what of it is spoiled: a line for each block
// that differs, and how many bytes do in all.
pub fn compare(rt: &impl Print, message: &[u8], ink: &[u8]) -> io::Result<()> {
    if message.len() != ink.len() {
        return println!(rt; "        its length is not that of the pad's ink file");
    }
    let blocks = message
        .chunks(lengths::BLOCK)
        .zip(ink.chunks(lengths::BLOCK));
    for (block, (a, b)) in blocks.enumerate() {
        let n = differ(a, b);
        if n != 0 {
            println!(rt; "        block {block} is not the pad's: bytes spoiled {n}")?;
        }
    }
    let n = differ(message, ink);
    if n == 0 {
        return println!(rt; "        it is the pad's ink file");
    }
    println!(rt; "        spoiled in all: bytes {n} of {}", message.len())
}
