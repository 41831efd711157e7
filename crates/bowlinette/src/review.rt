// Reading tables for the review screen (document 02, 2026-01), for C programs.
ghost use Rattle.std.specs.Prelude.{◌≡◌};
ghost use Rattle.bowlinette.specs.Into.{kept};
ghost use Rattle.reading_book.specs.Answers.{reading_chain_checked, build_reading_answer};
ghost use Rattle.reader.specs.Answers.{read_answer};

use crate::deliver_length;
use cipher::refusal::number;

// Whether a reading chain is one for a key of n bytes.
pub fn bowlinette_check_reading_chain(n: usize, chain: &[u8]) -> u32
    ensures { result ≡ reading_chain_checked n chain.now }
{
    number(reading_book::chain::check_reading_chain(n, chain))
}

// The reading book of a key and a reading chain, into the front of out.
pub fn bowlinette_build_reading(schedule: u8, key: &[u8], chain: &[u8], out: &mut [u8]) -> u32
    ensures { (result, out.new) ≡ build_reading_answer schedule key.now chain.now out.old }
{
    number(reading_book::build::build_reading(schedule, key, chain, out))
}

// A sealed text read by a reading book from an IV, into the front of out, and the length of that into
// length.
pub fn bowlinette_read(
    book: &[u8],
    iv: &[u8],
    sealed: &[u8],
    out: &mut [u8],
    length: &mut u64,
) -> u32
    ensures { ((result, length.new), out.new) ≡ kept (read_answer book.now iv.now sealed.now out.old) length.old }
{
    deliver_length(reader::read::read(book, iv, sealed, out), length)
}
