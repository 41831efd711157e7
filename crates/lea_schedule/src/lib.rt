// LEA's key schedule, for keys of 16, 24 and 32 bytes.

#![tactic(auto)]

pub mod schedule; // schedule.rt: the rows of round keys of a key
