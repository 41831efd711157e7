// A block folded into another by a group of fold tables (01's terms).
ghost use Rattle.std.specs.Prelude.{◌≡◌, ◌<◌};
ghost use Rattle.cipher.specs.Tables.{table_fold};
ghost use Rattle.table_reader.specs.Reading.{fold_byte};

use crate::entry::{high, joined, low};
use cipher::lengths;

// A group of fold tables (01's term).
pub type FoldGroup = [u8; lengths::GROUP];

// The two fold tables of a byte.
const TWO: usize = 2 * lengths::FOLD;

// Byte k of a fold, from the bytes x and y: tables 2k and 2k + 1 of the group serve its halves.
fn fold_two(f: &FoldGroup, k: usize, x: u8, y: u8) -> u8
    requires { k < 16 }
    ensures { result ≡ fold_byte f.now k x y }
{
    let lo = f[TWO * k + (16 * low(x) + low(y))];
    let hi = f[TWO * k + lengths::FOLD + (16 * high(x) + high(y))];
    joined(lo, hi)
}

// The block y folded into the block x by the group f.
pub fn fold(f: &FoldGroup, x: [u8; 16], y: [u8; 16]) -> [u8; 16]
    ensures { result ≡ table_fold f.now x y }
{
    std::array::from_fn(|k| fold_two(f, k, x[k], y[k]))
}
