// What both round trips begin with: a book from a key and a chain, and what the parts have from then on.
// The schedule stays a number, as the C interface has it.
ghost use Rattle.std.specs.Prelude.{◌≡◌, ◌+◌, ◌*◌, ◌≤◌, length, take, drop};
ghost use Rattle.cipher.specs.Lengths.{set_length};
ghost use Rattle.cipher.specs.KeySize.{rounds, book_length};
ghost use Rattle.roundtrip.specs.Steps.{start_told, start_answer};

use book::build::build;
use cipher::lengths;
use cipher::refusal::Refusal;
use cipher::size::KeySize;

// The book into the front of its buffer, and the size of the key.
pub fn start(schedule: u8, key: &[u8], chain: &[u8], book: &mut [u8]) -> Result<KeySize, Refusal>
    ensures { (start_told result, book.new) ≡ start_answer schedule key.now chain.now book.old }
{
    build(schedule, key, chain, book)?;
    KeySize::of_key_len(key.len()).ok_or(Refusal::KeyLength)
}

// What the parts have: schedule and key, the first set of the chain and the last, and the book.
#[derive(Clone, Copy)]
pub struct Parts<'a> {
    pub schedule: u8,
    pub key: &'a [u8],
    pub u: &'a [u8],
    pub set: &'a [u8],
    pub book: &'a [u8],
}

impl<'a> Parts<'a> {
    // By a schedule and a key of a size, from a chain and what begins with a book.
    pub fn of(
        schedule: u8,
        key: &'a [u8],
        size: KeySize,
        chain: &'a [u8],
        book: &'a [u8],
    ) -> Parts<'a>
        requires chain_fits { set_length * (rounds size + 1) + set_length ≤ length chain.now }
        requires book_fits { book_length size ≤ length book.now }
        ensures schedule { result.schedule ≡ schedule }
        ensures key { result.key.now ≡ key.now }
        ensures u { result.u.now ≡ take set_length chain.now }
        ensures set { result.set.now ≡ take set_length (drop (set_length * (rounds size + 1)) chain.now) }
        ensures book { result.book.now ≡ take (book_length size) book.now }
    {
        let last = lengths::SET * (size.rounds() + 1);
        Parts {
            schedule,
            key,
            u: &chain[0..lengths::SET],
            set: &chain[last..last + lengths::SET],
            book: &book[0..size.book_len()],
        }
    }
}
