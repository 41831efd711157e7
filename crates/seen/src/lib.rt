// The seen word of a coding (document 02, 2026-04): its 16 entries are read once, and each that is
// below 16 sets a bit.

#![tactic(auto)]

ghost use Rattle.std.specs.Prelude.{◌≡◌, cond, ◌+◌, ◌/◌, ◌%◌, ◌^◌, ◌≤◌, eqb, length, get_or};
ghost use Rattle.std.specs.Int.Count.{ones};
ghost use Rattle.seen.specs.SeenWord.{bit_of, seen_word};

// How many entries a coding has.
const ENTRIES: usize = 16;

// Of the eight bits of one half of a seen word, the one that entry x sets: none, if x is not among
// the eight values of that half.
fn half_bit(x: u8, half: u8) -> u8
    ensures { result ≡ cond (eqb (x / 8) half) (2 ^ (x % 8)) 0 }
{
    if x / 8 == half { 1 << (x % 8) } else { 0 }
}

// The bit that entry x sets. One over 15 sets none, since it is in neither half.
#[tactic(auto, using(crate::proofs::SeenLaws::halves))]
fn bit_of(x: u8) -> u16
    ensures { result ≡ bit_of 16 x }
{
    u16::from_le_bytes([half_bit(x, 0), half_bit(x, 1)])
}

// The seen word of the coding that stands in s from `at` on.
fn seen_word(s: &[u8], at: usize) -> u16
    requires { at + 16 ≤ length s.now }
    ensures { result ≡ seen_word 16 16 (λ v. get_or s.now (at + v) 0) }
{
    s[at..at + ENTRIES]
        .iter()
        .fold(0, |seen, x| seen | bit_of(*x))
}

// Whether all 16 values are seen in it: whether the word's count of ones is 16.
pub fn all_seen(s: &[u8], at: usize) -> bool
    requires { at + 16 ≤ length s.now }
    ensures { result ≡ eqb (ones (seen_word 16 16 (λ v. get_or s.now (at + v) 0))) 16 }
{
    seen_word(s, at).count_ones() == 16
}
