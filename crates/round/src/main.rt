// The round program (document 01, "Table of examples"): standard input is a key length byte, a key,
// a chain and one coded block. It prints the opened block after the first round and after the last,
// or a refusal.

#![tactic(auto)]

ghost use Rattle.std.specs.Prelude.{◌≡◌, ◌≤◌, length, OnErr};
ghost use Rattle.std.specs.Io.{ReadsAtMost};
ghost use Rattle.round.specs.Round.{wanted as wanted_bytes};

use cipher::lengths;
use cipher::size::KeySize;
use std::io;
use std::io::Read;

mod page; // page.rt: a text in fixed memory
mod text; // text.rt: lines and refusals
mod rounds; // rounds.rt: the rounds, by the tables of one at a time
mod report; // report.rt: what is printed for any input

// The longest input, that of a key of 32 bytes and so 32 rounds: length byte, key, chain, block.
const LONGEST: usize = 1
    + 32
    + 2 * lengths::SET
    + (lengths::SET + lengths::ROUND_CODINGS) * 32
    + lengths::BLOCK;

// How many bytes are to be read, by the first of them: one where it is no length of a key.
fn wanted(first: u8) -> usize
    ensures { (result ≡ wanted_bytes first) × (1 ≤ result) × (result ≤ 30513) }
{
    let Some(size) = KeySize::of_key_len(usize::from(first)) else {
        return 1;
    };
    1 + size.key_len() + size.chain_len() + lengths::BLOCK
}

// Reads until the part is full or the input ends, and answers how many bytes it put at the part's start. A read that
// fails leaves a part of the same length.
fn read_full(from: &mut impl Read, part: &mut [u8]) -> io::Result<usize>
    ensures ok { ReadsAtMost result part.new }
    ensures err { OnErr result (length part.new ≡ length part.old) }
{
    let mut done = 0;
    // By a count: how far a turn comes is what the read says.
    while done < part.len() {
        let n = from.read(&mut part[done..])?;
        if n == 0 {
            break;
        }
        done += n;
    }
    Ok(done)
}

// Reads the input and no later byte, and answers how many bytes there were of it. A read that fails leaves a buffer of
// the same length.
fn read_input(from: &mut impl Read, input: &mut [u8]) -> io::Result<usize>
    requires { length input.old ≡ 30513 }
    ensures ok { ReadsAtMost result input.new }
    ensures err { OnErr result (length input.new ≡ length input.old) }
{
    if read_full(from, &mut input[0..1])? == 0 {
        return Ok(0);
    }
    let end = wanted(input[0]);
    let n = read_full(from, &mut input[1..end])?;
    Ok(1 + n)
}

fn main(rt: HostRuntime) -> io::Result<()> {
    let mut input = [0u8; LONGEST];
    let n = read_input(&mut rt.stdin(), &mut input)?;
    rt.write_all(report::report(&input[..n]).bytes())
}
