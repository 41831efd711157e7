// The functions of words (FIPS 180-4, 4.1.2), and the sums of them that the message schedule and a round make (6.2.2).
ghost use Rattle.std.specs.Prelude.{◌≡◌, ◌<◌};
ghost use Rattle.sha256.specs.Sha256 as S;

use words::word::rotate_right;

// Ch and Maj.
#[tactic(auto, unfolding(crate::specs::Sha256::ch, words::specs::Word::xor))]
fn ch(x: u32, y: u32, z: u32) -> u32
    ensures { result ≡ S.ch x y z }
{
    (x & y) ^ (!x & z)
}

#[tactic(auto, unfolding(crate::specs::Sha256::maj, words::specs::Word::xor))]
fn maj(x: u32, y: u32, z: u32) -> u32
    ensures { result ≡ S.maj x y z }
{
    (x & y) ^ (x & z) ^ (y & z)
}

// Three rotations of x xored: Σ0 and Σ1.
#[tactic(auto, unfolding(crate::specs::Sha256::turned, words::specs::Word::xor))]
fn turned(a: usize, b: usize, c: usize, x: u32) -> u32
    ensures { result ≡ S.turned a b c x }
{
    rotate_right(x, a) ^ rotate_right(x, b) ^ rotate_right(x, c)
}

// Two rotations of x and a shift xored: σ0 and σ1.
#[tactic(auto, unfolding(crate::specs::Sha256::shifted, words::specs::Word::xor))]
fn shifted(a: usize, b: usize, c: usize, x: u32) -> u32
    requires { c < 32 }
    ensures { result ≡ S.shifted a b c x }
{
    rotate_right(x, a) ^ rotate_right(x, b) ^ (x >> c)
}

// A word of the message schedule from those 2, 7, 15 and 16 places before it.
#[tactic(auto, unfolding(crate::specs::Sha256::schedule_word, words::specs::Word::add))]
pub fn schedule_word(a: u32, b: u32, c: u32, d: u32) -> u32
    ensures { result ≡ S.schedule_word a b c d }
{
    shifted(17, 19, 10, a)
        .wrapping_add(b)
        .wrapping_add(shifted(7, 18, 3, c))
        .wrapping_add(d)
}

// T1 and T2 of a round.
#[tactic(auto, unfolding(crate::specs::Sha256::temp1, words::specs::Word::add))]
pub fn temp1(e: u32, f: u32, g: u32, h: u32, k: u32, w: u32) -> u32
    ensures { result ≡ S.temp1 e f g h k w }
{
    h.wrapping_add(turned(6, 11, 25, e))
        .wrapping_add(ch(e, f, g))
        .wrapping_add(k)
        .wrapping_add(w)
}

#[tactic(auto, unfolding(crate::specs::Sha256::temp2, words::specs::Word::add))]
pub fn temp2(a: u32, b: u32, c: u32) -> u32
    ensures { result ≡ S.temp2 a b c }
{
    turned(2, 13, 22, a).wrapping_add(maj(a, b, c))
}
