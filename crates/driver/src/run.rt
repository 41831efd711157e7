// Rounds on one block: by the tables of a single round, or by the first rounds of a book. Each refuses
// tables of a wrong length (6), then a block that is not of 16 bytes (7); between the two a book is
// refused whose first byte does not belong to its length (33).
ghost use Rattle.std.specs.Prelude.{◌≡◌};
ghost use Rattle.cipher.specs.Answers.{block_told};
ghost use Rattle.driver.specs.Driver.{run_round_answer, run_rounds_answer};

use crate::admit::Book;
use cipher::block::block_at;
use cipher::lengths;
use cipher::refusal::Refusal;
use table_reader::entry::RoundTables;
use table_reader::round::{rounds, step};

// A block by the tables of one round.
pub fn run_round(tables: &[u8], block: &[u8]) -> Result<[u8; 16], Refusal>
    ensures { block_told result ≡ run_round_answer tables.now block.now }
{
    let Ok(tables) = <&RoundTables>::try_from(tables) else {
        return Err(Refusal::BookLength);
    };
    if block.len() != lengths::BLOCK {
        return Err(Refusal::BlockLength);
    }
    let mut y = block_at(block, 0);
    step(tables, &mut y);
    Ok(y)
}

// A block by the first n rounds of a book, all of them where n is more.
pub fn run_rounds(book: &[u8], n: usize, block: &[u8]) -> Result<[u8; 16], Refusal>
    ensures { block_told result ≡ run_rounds_answer book.now n block.now }
{
    let parts = Book::admit(book)?;
    if block.len() != lengths::BLOCK {
        return Err(Refusal::BlockLength);
    }
    let all = parts.size.rounds();
    let few = n.min(all);
    let first = block_at(block, 0);
    Ok(rounds(parts.body, few, first))
}
