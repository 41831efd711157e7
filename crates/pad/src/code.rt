// Coding a message for sealing, and coding it for a tag (document 01, "Pad, driver, archive").
// Refusals 2 and 3 are those of the set, 8 is a message too long, 9 a buffer shorter than what is
// written.
ghost use Rattle.std.specs.Prelude.{◌≡◌, ◌+◌, ◌≤◌};
ghost use Rattle.lists.specs.Blocks.{block_length};
ghost use Rattle.lists.specs.Refusals.{first};
ghost use Rattle.cipher.specs.Refusal.{outcome_of, written_of};
ghost use Rattle.pad.specs.Padding.{kind_of, tag_added};
ghost use Rattle.pad.specs.Answers.{coding_tests, tag_code_told, sealing_answer, tag_answer};

use crate::text::code_text;
use cipher::chain::check_set;
use cipher::lengths;
use cipher::refusal::Refusal;

// What coding for a tag gives: how many bytes were written, and their kind (01's term).
#[derive(Clone, Copy)]
pub struct TagCode {
    pub length: usize,
    pub kind: u8,
}

// What both codings refuse: the set (2, 3), a message of n bytes (8), the room for it and the
// added bytes (9).
fn admit(u: &[u8], n: usize, added: usize, room: usize) -> Result<(), Refusal>
    requires { added ≤ block_length }
    ensures { outcome_of result ≡ first (coding_tests u.now n (n + added) room) (λ q. q) 0 }
{
    check_set(u)?;
    if lengths::LONGEST_MESSAGE < n {
        return Err(Refusal::MessageLength);
    }
    if room < n + added {
        return Err(Refusal::ShortBuffer);
    }
    Ok(())
}

// The kind of a message of n bytes: a byte, as the driver and C programs take it.
#[tactic(auto, using(std::proofs::lemmas::Bool::Decides::nat_tests), unfolding(crate::specs::Padding::kind_of, crate::specs::Padding::fills_blocks))]
fn kind_of(n: usize) -> u8
    ensures { result ≡ kind_of n }
{
    u8::from(n == 0 || n % lengths::BLOCK != 0)
}

// How many bytes are added to a message of n bytes and of a kind.
#[tactic(auto, unfolding(crate::specs::Padding::kind_of, crate::specs::Padding::tag_added))]
fn tag_added(n: usize, kind: u8) -> usize
    requires { kind ≡ kind_of n }
    ensures { result ≡ tag_added n }
{
    if kind == 0 {
        0
    } else {
        lengths::BLOCK - n % lengths::BLOCK
    }
}

// A message padded by PKCS#7 and coded by the set u, into the front of out.
pub fn code_for_sealing(u: &[u8], message: &[u8], out: &mut [u8]) -> Result<usize, Refusal>
    ensures { (written_of result, out.new) ≡ sealing_answer u.now message.now out.old }
{
    let n = message.len();
    let added = lengths::BLOCK - n % lengths::BLOCK;
    admit(u, n, added, out.len())?;
    let tail = [added as u8; lengths::BLOCK];
    code_text(u, message, &tail[0..added], out);
    Ok(n + added)
}

// A message padded for a tag and coded by the set u, into the front of out.
pub fn code_for_tag(u: &[u8], message: &[u8], out: &mut [u8]) -> Result<TagCode, Refusal>
    ensures { (tag_code_told result, out.new) ≡ tag_answer u.now message.now out.old }
{
    let n = message.len();
    let kind = kind_of(n);
    let added = tag_added(n, kind);
    admit(u, n, added, out.len())?;
    let mut tail = [0u8; lengths::BLOCK];
    tail[0] = 0x80;
    code_text(u, message, &tail[0..added], out);
    Ok(TagCode {
        length: n + added,
        kind,
    })
}
