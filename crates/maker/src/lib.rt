// The chain maker (document 02, 2026-03): chains of codings from random bytes. Which bytes are skipped
// is decided by the bytes alone, so they are counted first, and a chain is written where they suffice.

#![tactic(auto)]

mod count; // count.rt: how many bytes the draws of a chain need
mod fill; // fill.rt: the parts of a chain, drawn into a buffer
pub mod make; // make.rt: the operations, a chain and a reading chain
mod plan; // plan.rt: which codings are not drawn
