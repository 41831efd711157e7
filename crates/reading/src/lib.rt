// Reading tables (document 02, 2026-01), by which the review screen's PC deciphers without a key:
// what they hold and what they show stands in specs/, the laws in proofs/. The code has their lengths.

#![tactic(auto)]

pub mod lengths;
