// 32-bit words: what LEA and SHA-256 do with them, and rows of them as round keys.

#![tactic(auto)]

pub mod word; // word.rt: rotations, and the bytes of words
