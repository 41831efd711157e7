// Codings inverted once, so that a builder decodes by one look-up.
ghost use Rattle.std.specs.Prelude.{◌≡◌, ◌*◌, ◌/◌, ◌≤◌, length};
ghost use Rattle.lists.specs.Blocks.{Below};
ghost use Rattle.cipher.specs.Coding.{FirstPermutations, inverted};

use cipher::invert::invert;
use cipher::lengths;

// N bytes: codings inverted, one after another. All are half bytes.
#[derive(Clone, Copy)]
pub struct Inverted<const N: usize> {
    pub bytes: [u8; N],
    ghost low: { Below 16 bytes },
}

impl<const N: usize> Inverted<N> {
    // The codings in the front of a slice inverted. That they are permutations is asked: a type would be one for each
    // N, to be made of a ChainSet, of its first 24 codings or of a chain's bytes for a round before each call.
    pub fn of(codings: &[u8]) -> Inverted<N>
        requires { (N ≡ N / 16 * 16) × (N ≤ length codings.now) × FirstPermutations (N / 16) codings.now }
        ensures { result.bytes ≡ inverted (N / 16) codings.now }
    {
        let mut bytes = [0u8; N];
        invert(codings, N / lengths::CODING, &mut bytes);
        Inverted { bytes }
    }
}

// A set inverted, and the codings of three words.
pub type InvertedSet = Inverted<512>;

pub type InvertedWords = Inverted<384>;
