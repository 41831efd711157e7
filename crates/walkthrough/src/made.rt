// A key, a chain and an ink file by fixed rules, another for each pad's number.
ghost use Rattle.std.specs.Prelude.{◌<◌};

use cipher::lengths;
use std::array;

// The ink file, in bytes.
pub const INK: usize = 9412;

// How many sets a chain of 24 rounds has, with the message set.
const SETS: usize = 26;

// The chain of a 16-byte key, which has 24 rounds.
pub const CHAIN: usize = SETS * lengths::SET + 24 * lengths::ROUND_CODINGS;

// What one ink file's way begins with: the key and the chain of its pad, the file, and an IV.
#[derive(Drop)]
pub struct Case {
    pub key: [u8; 16],
    pub chain: [u8; CHAIN],
    pub ink: [u8; INK],
    pub iv: [u8; 16],
}

impl Case {
    // The case of pad n.
    pub fn of_pad(n: u8) -> Case {
        Case {
            key: key(n),
            chain: chain(n),
            ink: ink(),
            iv: key(3),
        }
    }
}

// The key of pad n.
pub fn key(n: u8) -> [u8; 16] {
    array::from_fn(|i| ((31 * i + 77 * (n as usize)) % 256) as u8)
}

// Entry e of coding number n: an odd factor and a shift, mod 16, so each number comes once.
fn entry(n: usize, e: usize) -> u8
    requires { e < 16 }
{
    if n % 2 == 0 {
        return ((5 * e + n / 2 % 16) % 16) as u8;
    }
    ((11 * e + n / 2 % 16) % 16) as u8
}

// Byte i of the sets of pad n's chain. Word 3 of each set after set 0 is word 0 of the set before it.
fn set_byte(n: u8, i: usize) -> u8
    requires { i < 13312 }
{
    let set = i / lengths::SET;
    let coding = i / lengths::CODING;
    let e = i % lengths::CODING;
    let word = coding % lengths::SET_CODINGS / lengths::HALVES;
    if 2 <= set {
        if word == 3 {
            return entry(5 * (coding - lengths::SET_CODINGS - 24) + n as usize, e);
        }
    }
    entry(5 * coding + n as usize, e)
}

// Byte i of the rounds of pad n's chain: 24 middle codings, then 24 masks.
fn round_byte(n: u8, i: usize) -> u8 {
    let l = i / lengths::ROUND_CODINGS;
    let k = i % lengths::ROUND_CODINGS;
    if k < lengths::MIDDLES * lengths::CODING {
        return entry(
            7 * (k / lengths::CODING) + l % 100 + n as usize,
            k % lengths::CODING,
        );
    }
    if (k + l % 100) % 3 == 0 { 1 } else { 0 }
}

// Byte i of pad n's chain.
fn chain_byte(n: u8, i: usize) -> u8 {
    if i < SETS * lengths::SET {
        return set_byte(n, i);
    }
    round_byte(n, i - SETS * lengths::SET)
}

// The chain of pad n.
pub fn chain(n: u8) -> [u8; CHAIN] {
    array::from_fn(|i| chain_byte(n, i))
}

// The ink file: pen strokes, as far as anybody can tell.
fn ink() -> [u8; INK] {
    array::from_fn(|i| ((37 * i / 11 + i / 100) % 256) as u8)
}
