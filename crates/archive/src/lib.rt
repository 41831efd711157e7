// The archive (document 01, "Pad, driver, archive"), which has the key and set r: opening a sealed
// file, and checking a tag.

#![tactic(auto)]

mod blocks;
pub mod check;
mod mac;
pub mod open;
mod padding;
