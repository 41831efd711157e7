// What the tests and the bench call beside the C interface: crate `bowlinette_test_c` exports the four functions
// named `bowlinette_..`, in a static library of its own; no product links it. The two round trips have scratch
// buffers, in which a refusal leaves what was written before it. Schedules are numbered as in the C interface.

#![tactic(auto)]

ghost use Rattle.std.specs.Prelude.{◌≡◌};
ghost use Rattle.cipher.specs.Answers.{block_told};
ghost use Rattle.bowlinette.specs.Into.{into, kept};
ghost use Rattle.bowlinette_test.specs.CbcMac.{cbc_mac_answer};
ghost use Rattle.bowlinette_test.specs.Digest.{sha256_answer};
ghost use Rattle.roundtrip.specs.Roundtrips.{tag_roundtrip, seal_roundtrip};

use bowlinette::{deliver, deliver_length, deliver_verdict};
use cipher::lengths;
use cipher::refusal::Refusal;
use cipher::schedules::Key;
use words::word::bytes;

// How many bytes a message has at most that with its padding is one block of SHA-256.
const ONE_BLOCK: usize = 55;

// The CBC-MAC of the whole blocks of a text.
fn cbc_mac(schedule: u8, key: &[u8], text: &[u8]) -> Result<[u8; 16], Refusal>
    ensures { block_told result ≡ cbc_mac_answer schedule key.now text.now }
{
    let key = Key::of(schedule, key)?;
    let keys = key.round_keys();
    let x = cipher::cmac::cbc_mac(keys, text, text.len() / lengths::BLOCK);
    Ok(bytes(x))
}

// For the benchmark: the CBC-MAC of the whole blocks of a text, into out.
pub fn bowlinette_cbc_mac(schedule: u8, key: &[u8], text: &[u8], out: &mut [u8; 16]) -> u32
    ensures { (result, out.new) ≡ into (cbc_mac_answer schedule key.now text.now) out.old }
{
    deliver(cbc_mac(schedule, key, text), out)
}

// For the tests: SHA-256 of a message of one block, into out; a longer message is refused (8).
pub fn bowlinette_sha256(message: &[u8], out: &mut [u8; 32]) -> u32
    ensures { (result, out.new) ≡ into (sha256_answer message.now) out.old }
{
    if ONE_BLOCK < message.len() {
        return Refusal::MessageLength.into();
    }
    let d = sha256::digest(message);
    *out = d;
    0
}

// For the tests: the round trip of a tag, the verdict into valid. Book and coded are scratch, of which a
// refusal leaves what the calls before it wrote.
pub fn bowlinette_tag_roundtrip(
    schedule: u8,
    key: &[u8],
    chain: &[u8],
    message: &[u8],
    book: &mut [u8],
    coded: &mut [u8],
    valid: &mut u8,
) -> u32
    ensures { ((result, valid.new), (book.new, coded.new)) ≡ kept (tag_roundtrip schedule key.now chain.now message.now book.old coded.old) valid.old }
{
    deliver_verdict(
        roundtrip::tag::tag_roundtrip(schedule, key, chain, message, book, coded),
        valid,
    )
}

// For the tests: the round trip of a sealed file, the message into the front of out, and its length into
// length. Book, coded and sealed are scratch, of which a refusal leaves what the calls before it wrote.
pub fn bowlinette_seal_roundtrip(
    schedule: u8,
    key: &[u8],
    chain: &[u8],
    iv: &[u8],
    message: &[u8],
    book: &mut [u8],
    coded: &mut [u8],
    sealed: &mut [u8],
    out: &mut [u8],
    length: &mut u64,
) -> u32
    ensures { ((result, length.new), (book.new, coded.new, sealed.new, out.new))
        ≡ kept (seal_roundtrip schedule key.now chain.now iv.now message.now book.old coded.old sealed.old out.old) length.old }
{
    deliver_length(
        roundtrip::seal::seal_roundtrip(
            schedule, key, chain, iv, message, book, coded, sealed, out,
        ),
        length,
    )
}
