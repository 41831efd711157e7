// The driver (document 01, "Pad, driver, archive"): rounds from the tables of a book, sealing, and
// the tag session. It has no key, no coding and no builder. The session is in three modules: by value, lent,
// and lent for one call; CLAIMS names each.

#![tactic(auto)]

mod admit;
pub mod lending;
pub mod lent;
mod pass;
pub mod run;
pub mod seal;
pub mod session;
