// The builder of reading books (document 02, 2026-01): from a key and a reading chain the tables by which
// a reader without a key deciphers; and the check of reading chains.

#![tactic(auto)]

pub mod build; // build.rt: the operation, a reading book
pub mod chain; // chain.rt: the check of a reading chain
mod rounds; // rounds.rt: the tables of the rounds
mod subtracts; // subtracts.rt: subtract tables
mod turns; // turns.rt: turn tables
