// The entries of single tables (document 01, "Book"): add, turn and fold tables, from the codings that
// they take in and give. The inner part of building books and reading books.

#![tactic(auto)]

pub mod adds;
pub mod folds;
pub mod inverted;
pub mod rounds;
pub mod rows;
pub mod sets;
pub mod turns;
