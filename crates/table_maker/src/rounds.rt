// What the tables of a round are made from, cut out of a chain.
ghost use Rattle.std.specs.Prelude.{◌≡◌, ℕ, ◌<◌};
ghost use Rattle.cipher.specs.KeySize as S;
ghost use Rattle.cipher.specs.Chain.{ChainBy, round_codings};
ghost use Rattle.table_maker.specs.Made.{RoundReady, codings_of};

use crate::adds::Middles;
use cipher::lengths;
use cipher::size::KeySize;

// The set before a round, the set after it, and a chain's bytes for the round, each in the front of a
// slice.
#[derive(Clone, Copy)]
pub struct Round<'a> {
    pub before: &'a [u8],
    pub after: &'a [u8],
    pub middles: Middles<'a>,
    ghost ready: { RoundReady before.now after.now middles.bytes.now },
}

impl<'a> Round<'a> {
    // Round l of a valid chain, whatever words its word rule goes from and to.
    pub fn of_chain(size: KeySize, chain: &'a [u8], l: usize) -> Round<'a>
        requires { ((from : ℕ) × (to : ℕ) × ChainBy from to size chain.now) × (l < S.rounds size) }
        ensures { codings_of result.before.now result.after.now result.middles.bytes.now ≡ round_codings (S.rounds size) chain.now l }
    {
        let r = size.rounds();
        let before = lengths::SET * (l + 1);
        let after = lengths::SET * (l + 2);
        let at = lengths::SET * (r + 2) + lengths::ROUND_CODINGS * l;
        let middles = Middles {
            bytes: &chain[at..],
        };
        Round {
            before: &chain[before..],
            after: &chain[after..],
            middles,
        }
    }
}
