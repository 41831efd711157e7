// The shared cipher part: key sizes, refusals, LEA's rounds under the rows of either schedule, what CMAC takes from them, codings.
// Pad, driver, archive and works stand above it and use what its contracts and laws say.

#![tactic(auto)]

pub mod lengths; // lengths.rt: the lengths that are the same for all key sizes
pub mod size; // size.rt: the three key sizes and the lengths that go with them
pub mod refusal; // refusal.rt: what an operation refuses, by number
pub mod schedules; // schedules.rt: the two schedules, and the rows of a key
pub mod round; // round.rt: a round of LEA, and the same undone
pub mod rows; // rows.rt: blocks under the rows of a schedule
pub mod lea; // lea.rt: the operations on a key and a block
pub mod cmac; // cmac.rt: doubling, the subkeys of CMAC and the CBC-MAC under it
pub mod chain; // chain.rt: the checks of sets and chains
pub mod block; // block.rt: blocks coded by a set
pub mod invert; // invert.rt: codings inverted once
pub mod image; // image.rt: bytes coded by one look-up
