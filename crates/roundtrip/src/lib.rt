// The round trips of a message through all parts, from a key, a chain and plain buffers: what demand 3 says of the parts together,
// run. The theorems of claims prove the contracts.

#![tactic(auto)]

mod start; // start.rt: the book, which both begin with
pub mod seal; // seal.rt: a message coded, sealed and opened
pub mod tag; // tag.rt: a message coded, tagged and checked
