// PKCS#7 padding at the end of an opened text (01's refusal 11).
ghost use Rattle.std.specs.Prelude.{◌≡◌, cond, ◌+◌, ◌-◌, ◌≤◌, eqb, get_or};
ghost use Rattle.lists.specs.Blocks.{block_length};
ghost use Rattle.lists.specs.Every.{every};
ghost use Rattle.archive.specs.Archive.{ends_padded, last_byte};

use cipher::lengths;

// The last byte of a block.
const LAST: usize = lengths::BLOCK - 1;

// Whether the last v bytes of a block are all v.
fn ends_with(b: [u8; 16], v: usize) -> bool
    requires { v ≤ block_length }
    ensures { result ≡ every v (λ k. eqb (get_or b (block_length - v + k) 0) v) }
{
    b[lengths::BLOCK - v..].iter().all(|x| usize::from(*x) == v)
}

// How many bytes of padding the last block of a text ends with, or none where its end is no padding.
pub fn padding(b: [u8; 16]) -> Option<usize>
    ensures { result ≡ cond (ends_padded b) (Some (last_byte b)) None }
{
    let v = usize::from(b[LAST]);
    if v == 0 || lengths::BLOCK < v {
        return None;
    }
    if ends_with(b, v) { Some(v) } else { None }
}
