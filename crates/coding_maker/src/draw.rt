// Drawing one coding from random bytes (document 02, 2026-03). Where the bytes have ended, zeros are
// read on; that the bytes suffice is known before anything is written. A draw goes past the end by one
// byte for each number at most; the bounds in the contracts leave room for that, so that no sum is too
// large for a machine word.
ghost use Rattle.std.specs.Prelude.{◌≡◌, ◌≤◌, ◌<◌, length, get_or};
ghost use Rattle.cipher.specs.Lengths.{coding_length};
ghost use Rattle.coding_maker.specs.Draw as D;
ghost use Rattle.coding_maker.specs.Source.{rest, past, Near};

use crate::numbers::{Numbers, SKIPPED};
use cipher::lengths;

// Random bytes, what each stands for, and the place of the first that is left, which each draw moves on: so
// many were drawn.
#[derive(Clone, Copy)]
pub struct Source<'a> {
    pub numbers: &'a Numbers,
    pub random: &'a [u8],
    pub at: usize,
}

impl<'a> Source<'a> {
    pub fn new(numbers: &'a Numbers, random: &'a [u8]) -> Source<'a>
        ensures { (result.at ≡ 0) × (rest result ≡ random.now) }
    {
        Source {
            numbers,
            random,
            at: 0,
        }
    }

    // The next byte, or 0 behind the end.
    pub fn byte(&mut self) -> u8
        requires { Near 3000000 self.old }
        ensures { (result ≡ get_or self.old.random.now self.old.at 0) × (self.new ≡ past (λ s. 1) self.old) }
    {
        let byte = self.random.get(self.at).copied().unwrap_or(0);
        self.at += 1;
        byte
    }

    // The next n bytes, unread.
    pub fn skip(&mut self, n: usize)
        requires { (n ≤ 1000000) × Near 2000000 self.old }
        ensures { self.new ≡ past (λ s. n) self.old }
    {
        self.at += n;
    }

    // A number from 0 to k: bytes are skipped until one stands for a number.
    fn number(&mut self, k: usize) -> usize
        requires { (k < 16) × Near 2000000 self.old }
        ensures { (result ≡ D.chosen k (rest self.old)) × (self.new ≡ past (D.drawn k) self.old) }
    {
        for at in self.at..self.random.len() {
            let number = self.numbers.stands_for(k, self.random[at]);
            if number < SKIPPED {
                self.at = at + 1;
                return usize::from(number);
            }
        }
        self.at = self.at.max(self.random.len()) + 1;
        0
    }

    // The draws of a coding, without the coding.
    pub fn coding_draws(&mut self)
        requires { Near 1000000 self.old }
        ensures { self.new ≡ past D.coding_draws self.old }
    {
        for k in (1..lengths::CODING).rev() {
            self.number(k);
        }
    }

    // A coding drawn: each place from 15 down to 1 is exchanged with one that is not behind it.
    pub fn draw_coding(&mut self, out: &mut [u8])
        requires { Near 1000000 self.old × (length out.old ≡ coding_length) }
        ensures { (self.new ≡ past D.coding_draws self.old) × (out.new ≡ D.coding_from (rest self.old)) }
    {
        unshuffle(out);
        // Counted up: over (1..16).rev() making a chain took 1.09 of the time.
        for done in 1..lengths::CODING {
            let place = lengths::CODING - done;
            let other = self.number(place);
            // Not by out.swap: that was tried, and drawing a coding took more than twice its time.
            let x = out[place];
            out[place] = out[other];
            out[other] = x;
        }
    }
}

// Places 0 to 15 hold 0 to 15.
fn unshuffle(out: &mut [u8])
    requires { length out.old ≡ coding_length }
    ensures { out.new ≡ D.unshuffled }
{
    for (v, place) in out.iter_mut().enumerate() {
        *place = v as u8;
    }
}
