// The builder of books (document 01, "Book"): from a key and a chain the tables that a driver runs.

#![tactic(auto)]

mod rounds; // rounds.rt: the tables of the rounds
mod groups; // groups.rt: the start and the groups of fold tables
pub mod build; // build.rt: the operations, a book and one round of it
