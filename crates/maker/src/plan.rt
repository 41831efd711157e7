// Which codings of a chain are not drawn (document 02, 2026-03): those that the word rule fixes, and
// those of set 0 that are given. The codings of U and the sets are counted as they stand in a chain.
ghost use Rattle.maker.specs.Plan.{TwoWords};

use cipher::lengths;

// A word rule, word `to` of each set from 1 on is coded as word `from` of the set before; and the codings
// of set 0 that are given.
#[derive(Clone, Copy)]
pub struct Plan<'a> {
    pub from: usize,
    pub to: usize,
    pub given: &'a [u8],
    ghost two_words: { TwoWords from to },
}

impl Plan<'_> {
    ghost use Rattle.std.specs.Prelude.{◌≡◌};
    ghost use Rattle.maker.specs.Plan as P;
    ghost use Rattle.maker.specs.Planned.{planned};

    // Whether the word rule fixes coding k, whatever is given.
    pub fn fixes(&self, k: usize) -> bool
        ensures { result ≡ P.fixed_coding (planned self.now) k }
    {
        if k < 2 * lengths::SET_CODINGS {
            return false;
        }
        k % lengths::SET_CODINGS / lengths::HALVES == self.to
    }

    // Whether coding k is given: it is one of set 0, and `given` has it. The word rule has no part in this.
    pub fn gives(&self, k: usize) -> bool
        ensures { result ≡ P.given_coding (planned self.now) k }
    {
        if k < lengths::SET_CODINGS {
            return false;
        }
        k - lengths::SET_CODINGS < self.given.len() / lengths::CODING
    }
}
