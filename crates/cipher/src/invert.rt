// Codings inverted once, so that a builder decodes by one look-up (document 01, "Chain of
// codings": byte v of a coding is the image of v).
ghost use Rattle.std.specs.Prelude.{◌≡◌, ◌+◌, ◌*◌, ◌<◌, ◌≤◌, length};
ghost use Rattle.cipher.specs.Lengths.{coding_length};
ghost use Rattle.lists.specs.Tabulation.{tab};
ghost use Rattle.cipher.specs.Coding.{Permutation, FirstPermutations, coding_at, decode, inverted};

use crate::lengths;
use parts::in_parts;

// Coding k of a slice inverted: at the image of v stands v.
fn invert_one(codings: &[u8], k: usize, out: &mut [u8])
    requires { (coding_length * k + coding_length ≤ length codings.now) × (length out.old ≡ coding_length) × Permutation (coding_at codings.now k) }
    ensures { out.new ≡ tab coding_length (decode (coding_at codings.now k)) }
{
    let at = lengths::CODING * k;
    for (v, image) in codings[at..at + lengths::CODING].iter().enumerate() {
        out[usize::from(*image)] = v as u8;
    }
}

// The first n codings of a slice inverted, each in its place. That they are permutations is asked, and
// is no type: CLAIMS names the function, which is lent the front of a chain.
pub fn invert(codings: &[u8], n: usize, out: &mut [u8])
    requires { (coding_length * n ≤ length codings.now) × (length out.old ≡ n * coding_length) × FirstPermutations n codings.now }
    ensures { out.new ≡ inverted n codings.now }
{
    in_parts(
        out,
        lengths::CODING,
        n,
        |k, part| invert_one(codings, k, part),
    );
}
