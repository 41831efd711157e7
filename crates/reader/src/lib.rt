// The review screen (document 02, 2026-01): reads sealed text by the tables of a reading book. It has no
// key, no coding and no builder.

#![tactic(auto)]

mod blocks; // blocks.rt: all blocks of a buffer through the rounds, and the folds
pub mod read; // read.rt: the operation
mod round; // round.rt: one block through one round
mod turns; // turns.rt: the words of a block turned back
