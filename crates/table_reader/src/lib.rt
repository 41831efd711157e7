// The tables of a book read (document 01, "Book"): the inner part of the driver, which folds a block
// into another and takes it through rounds. Folding, and reading two entries of a sum, serve the reader
// of reading books too.

#![tactic(auto)]

pub mod entry;
pub mod fold;
pub mod round;
pub mod sums;
mod turns;
