// Entries of the tables of a round, and what is read of them: a half byte and, of an add entry, a
// carry.
ghost use Rattle.std.specs.Prelude.{◌≡◌, ◌+◌, ◌*◌, ◌/◌, ◌%◌, ◌<◌, ◌≤◌, length, get_or};
ghost use Rattle.cipher.specs.Lengths.{adds_length, add_length, turn_length, round_length};

use cipher::lengths;

// The tables of a round of a book, or of a reading book.
pub type RoundTables = [u8; lengths::ROUND_TABLES];

// The low half of a byte.
pub fn low(x: u8) -> usize
    ensures { result ≡ x % 16 }
{
    (x % 16) as usize
}

// The high half of a byte.
pub fn high(x: u8) -> usize
    ensures { result ≡ x / 16 % 16 }
{
    (x / 16 % 16) as usize
}

// Bit 4 of an add entry.
pub fn carry(e: u8) -> usize
    ensures { result ≡ e / 16 % 2 }
{
    (e / 16 % 2) as usize
}

// A byte of two half bytes, the bits 0 to 3 of two entries.
pub fn joined(lo: u8, hi: u8) -> u8
    ensures { result ≡ lo % 16 + 16 * (hi % 16) }
{
    lo % 16 + 16 * (hi % 16)
}

// An entry of table k of 512 bytes in t: of an add table, or of a subtract table of a reading round.
pub fn add_at(t: &[u8], k: usize, c: usize, p: usize, q: usize) -> u8
    requires { (c < 2) × (p < 16) × (q < 16) × (add_length * k + add_length ≤ length t.now) }
    ensures { result ≡ get_or t.now (add_length * k + (256 * c + 16 * p + q)) 0 }
{
    t[lengths::ADD * k + (256 * c + 16 * p + q)]
}

// An entry of turn table k of those in t.
pub fn turn_at(t: &[u8], k: usize, p: usize, q: usize) -> u8
    requires { (k < 24) × (p < 16) × (q < 16) × (round_length ≤ length t.now) }
    ensures { result ≡ get_or t.now (adds_length + turn_length * k + (16 * p + q)) 0 }
{
    t[lengths::TURNS + lengths::TURN * k + (16 * p + q)]
}
