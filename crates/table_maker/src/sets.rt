// A set as a valid chain has it.
ghost use Rattle.std.specs.Prelude.{◌≤◌, length};
ghost use Rattle.cipher.specs.Lengths.{set_length};
ghost use Rattle.cipher.specs.Coding.{FirstPermutations};

// A set in the front of a slice: 32 codings, each a permutation.
#[derive(Clone, Copy)]
pub struct ChainSet<'a> {
    pub bytes: &'a [u8],
    ghost permuted: { FirstPermutations 32 bytes.now },
    ghost room: { set_length ≤ length bytes.now },
}
