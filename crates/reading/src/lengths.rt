// Lengths in bytes of the parts of a reading book that a sealing book has not, and of the whole.
ghost use Rattle.std.specs.Prelude.{◌≡◌};
ghost use Rattle.reading.specs.Book.{reading_book_length, size_of_reading_book};

use cipher::lengths;
use cipher::size::KeySize;

// A subtract table, and where in a round the subtract tables begin, after the turn tables.
pub const SUBTRACT: usize = 512;

pub const SUBTRACTS: usize = 6144;

// The reading book of a key of a size.
pub fn reading_len(size: KeySize) -> usize
    ensures { result ≡ reading_book_length size }
{
    lengths::GROUP + lengths::ROUND_TABLES * size.rounds()
}

// The size of the key of a reading book of n bytes.
pub fn of_reading_len(n: usize) -> Option<KeySize>
    ensures { result ≡ size_of_reading_book n }
{
    KeySize::with_length(n, |size| reading_len(size))
}
