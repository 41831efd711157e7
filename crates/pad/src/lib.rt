// The pad's part (document 01, "Pad, driver, archive"; pad is its term): a message is padded and
// coded by the message set U, for sealing or for a tag.

#![tactic(auto)]

mod text; // text.rt: bytes coded in their places
pub mod code; // code.rt: the operations, coding for sealing and coding for a tag
