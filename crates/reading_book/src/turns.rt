// The turns of a reading book (document 02, 2026-01), from the codings of the set before a round to its
// middle codings.
ghost use Rattle.reading.specs.Tables.{upper_back, lower_back};
ghost use Rattle.reading.specs.LikeSealing.{cut_of};

use cipher::lengths;
use table_maker::turns::Turn;

pub struct Reading;

// How far above half byte j of a turned word lie the two half bytes of its word, mod 8.
const UPPER: [usize; 3] = [3, 7, 0];

const LOWER: [usize; 3] = [2, 6, 7];

// The sums of a sealing book that are cut as the words are here.
const CUT: [usize; 3] = [1, 0, 1];

// The bodies of upper and lower are those of Sealing: the trait promises what each type's definitions say,
// and a common body would have to be proved for every one.
impl Turn for Reading {
    ghost above = { upper_back };

    ghost below = { lower_back };

    ghost sum = { cut_of };

    fn upper(i: usize, j: usize) -> usize {
        (j + UPPER[i]) % lengths::HALVES
    }

    fn lower(i: usize, j: usize) -> usize {
        (j + LOWER[i]) % lengths::HALVES
    }

    fn cut(i: usize) -> usize {
        CUT[i]
    }
}
