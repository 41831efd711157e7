// What every record of an ink file has, and lengths in bytes (document 02, 2026-02).

// The first byte of a record.
pub const MARK: u8 = 0xa5;

// The head of a record: the mark, the kind, and four bytes of length.
pub const HEAD: usize = 6;

// The first four records but for the sealed blocks: their heads, a pad number, an IV and a tag.
pub const FIXED: usize = 64;

// A pad number, and the longest remark.
pub const PAD_NUMBER: usize = 8;

pub const LONGEST_REMARK: usize = 255;
