// The chain maker's operations (document 02, 2026-03): a chain, and a reading chain, from random bytes.
// Refusal 1 is a key of no known size, 2 and 3 are those of a set that is given, 9 is a short buffer, 32
// random bytes that ran out. Whether the bytes suffice is known before the first byte is written. What
// is told is how many bytes were drawn.
ghost use Rattle.std.specs.Prelude.{◌≡◌, length};
ghost use Rattle.cipher.specs.KeySize as S;
ghost use Rattle.cipher.specs.Refusal.{written_of};
ghost use Rattle.maker.specs.Planned.{planned};
ghost use Rattle.maker.specs.MadeChain.{chain_draws, chain_made};
ghost use Rattle.maker.specs.Answers.{draw_tests, made_into, make_answer, make_reading_answer};

use crate::count::chain_draws;
use crate::fill::{draw_rounds, draw_sets};
use crate::plan::Plan;
use cipher::chain::check_set;
use cipher::lengths;
use cipher::refusal::Refusal;
use cipher::size::KeySize;
use coding_maker::draw::Source;
use coding_maker::numbers::Numbers;

// A chain drawn into a buffer of its length; how many bytes were drawn.
fn draw_chain(numbers: &Numbers, random: &[u8], size: KeySize, plan: &Plan, out: &mut [u8]) -> usize
    requires { length out.old ≡ S.chain_length size }
    ensures { (result ≡ chain_draws (planned plan.now) (S.rounds size) random.now) × (out.new ≡ chain_made (planned plan.now) (S.rounds size) random.now) }
{
    let r = size.rounds();
    let sets = lengths::SET * (r + 2);
    let end = sets + lengths::ROUND_CODINGS * r;
    let mut source = Source::new(numbers, random);
    draw_sets(
        &mut source,
        plan,
        lengths::SET_CODINGS * (r + 2),
        &mut out[0..sets],
    );
    draw_rounds(&mut source, r, &mut out[sets..end]);
    source.at
}

// A chain for a key of a known size into the front of out, if this and the random bytes suffice.
fn make(size: KeySize, plan: &Plan, random: &[u8], out: &mut [u8]) -> Result<usize, Refusal>
    ensures { (written_of result, out.new) ≡ made_into (draw_tests (planned plan.now) size random.now out.old) (planned plan.now) size random.now out.old }
{
    let end = size.chain_len();
    if out.len() < end {
        return Err(Refusal::ShortBuffer);
    }
    let numbers = Numbers::new();
    if random.len() < chain_draws(&numbers, random, plan, size.rounds()) {
        return Err(Refusal::ShortRandom);
    }
    Ok(draw_chain(&numbers, random, size, plan, &mut out[0..end]))
}

// A chain for a key of n bytes, into the front of out.
pub fn make_chain(n: usize, random: &[u8], out: &mut [u8]) -> Result<usize, Refusal>
    ensures { (written_of result, out.new) ≡ make_answer n random.now out.old }
{
    let size = KeySize::of_key_len(n).ok_or(Refusal::KeyLength)?;
    let plan = Plan {
        from: 0,
        to: 3,
        given: &[],
    };
    make(size, &plan, random, out)
}

// A reading chain for a key of n bytes, whose set 0 is given, into the front of out.
pub fn make_reading_chain(
    n: usize,
    set: &[u8],
    random: &[u8],
    out: &mut [u8],
) -> Result<usize, Refusal>
    ensures { (written_of result, out.new) ≡ make_reading_answer n set.now random.now out.old }
{
    let size = KeySize::of_key_len(n).ok_or(Refusal::KeyLength)?;
    check_set(set)?;
    let plan = Plan {
        from: 3,
        to: 0,
        given: set,
    };
    make(size, &plan, random, out)
}
