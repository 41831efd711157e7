// Codings from random bytes (document 02, 2026-03): the inner part of making chains.

#![tactic(auto)]

pub mod draw; // draw.rt: one coding, and how many bytes its draws need
pub mod numbers; // numbers.rt: what each byte stands for, as a table
