// Ink files (document 02, 2026-02): pad number, IV, sealed blocks, tag and remarks in one file, as a
// run of records. A reader and a writer; neither has a key, a coding or a book.

#![tactic(auto)]

mod layout; // layout.rt: the mark, and lengths
mod kind; // kind.rt: kinds of records, and what is refused of one
pub mod read; // read.rt: where the fields of a file stand
pub mod write; // write.rt: a file from its fields
