// Lengths in bytes, and counts, that are the same for all key sizes (document 01, "Chain of codings",
// "Book" and "Refusals from the input"). Those that go with a key are in size.rt.

// A block.
pub const BLOCK: usize = 16;

// The longest message, and the most bytes that are sealed or opened.
pub const LONGEST_MESSAGE: usize = 1048575;

pub const LONGEST_CODE: usize = 1048576;

// How many values a half byte has, and how many half bytes a word.
pub const VALUES: usize = 16;

pub const HALVES: usize = 8;

// A coding (01's term): the image of each value of a half byte.
pub const CODING: usize = 16;

// A set (01's term), its codings, and the bytes of those of one word.
pub const SET: usize = 512;

pub const SET_CODINGS: usize = 32;

pub const WORD: usize = 128;

// How many middle codings, and how many masks, a chain (01's terms) has for each round; the bytes of
// the middle codings, after which the masks stand; and the bytes of both.
pub const MIDDLES: usize = 24;

pub const MASKS: usize = 384;

pub const ROUND_CODINGS: usize = 408;

// An add table, a turn table and a fold table (01's terms).
pub const ADD: usize = 512;

pub const TURN: usize = 256;

pub const FOLD: usize = 256;

// Where the body of a book (01's term) begins, in which all its parts stand: after the byte that states
// the key's length (document 02, 2026-05).
pub const BODY: usize = 1;

// The start of a book's body, one of its three groups of fold tables, and where its rounds begin.
pub const START: usize = 16;

pub const GROUP: usize = 8192;

pub const ROUNDS: usize = START + 3 * GROUP;

// The tables of one round of a book, 24 add tables and 24 turn tables, and where the latter begin.
pub const ROUND_TABLES: usize = 18432;

pub const TURNS: usize = 12288;

// The images of one place of a block, one for each byte, and those of all places.
pub const BYTES: usize = 256;

pub const IMAGES: usize = 4096;
