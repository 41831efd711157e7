// What the program prints for its input: key length byte, key, chain, one coded block; later bytes
// do not matter. The refusals are told in the order of their numbers.
ghost use Rattle.std.specs.Prelude.{◌≡◌, length};
ghost use Rattle.cipher.specs.KeySize as S;
ghost use Rattle.round.specs.Text.{shown, report_told, told};
ghost use Rattle.round.specs.Round.{two_lines, printed_after, printed};

use crate::page::Report;
use crate::rounds::Keyed;
use crate::text::{refused, two_lines};
use cipher::block::block_at;
use cipher::chain::check_sized;
use cipher::lengths;
use cipher::refusal::Refusal;
use cipher::size::KeySize;

// The two lines: the block after the first round and after all, each decoded by its set.
#[tactic(auto, using(cipher::proofs::KeySizeLaws::rounds_more))]
fn run(keyed: &Keyed, block: [u8; 16]) -> Report
    ensures { report_told result ≡ shown (two_lines keyed.now.size keyed.now.key.now keyed.now.chain.now block) }
{
    let r = keyed.size.rounds();
    let one = keyed.one_round(0, block);
    let first = keyed.opened(1, one);
    let all = keyed.later_rounds(one);
    let last = keyed.opened(r, all);
    two_lines(first, r, last)
}

// What is after the key: the chain, of which bytes may be missing (2) or wrong (3 to 5), and the block (7).
fn on_rest(size: KeySize, key: &[u8], rest: &[u8]) -> Result<Report, Refusal>
    requires { length key.now ≡ S.key_length size }
    ensures { told result ≡ shown (printed_after size key.now rest.now) }
{
    let n = size.chain_len();
    if rest.len() < n {
        return Err(Refusal::ChainLength);
    }
    let chain = &rest[0..n];
    let last = &rest[n..];
    check_sized(size, chain)?;
    if last.len() < lengths::BLOCK {
        return Err(Refusal::BlockLength);
    }
    let keyed = Keyed { size, key, chain };
    Ok(run(&keyed, block_at(last, 0)))
}

// The whole input: a length byte that is missing or none of the three, and missing bytes of the key
// (1), then what is after the key.
fn on_input(input: &[u8]) -> Result<Report, Refusal>
    ensures { told result ≡ shown (printed input.now) }
{
    if input.is_empty() {
        return Err(Refusal::KeyLength);
    }
    let n = usize::from(input[0]);
    let size = KeySize::of_key_len(n).ok_or(Refusal::KeyLength)?;
    let end = 1 + n;
    if input.len() < end {
        return Err(Refusal::KeyLength);
    }
    on_rest(size, &input[1..end], &input[end..])
}

// The lines of an input, or its refusal.
pub fn report(input: &[u8]) -> Report
    ensures { report_told result ≡ shown (printed input.now) }
{
    match on_input(input) {
        Ok(lines) => lines,
        Err(why) => refused(why.into()),
    }
}
