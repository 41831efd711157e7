// The start of a book and its three groups of fold tables (document 01, "Book").
ghost use Rattle.std.specs.Prelude.{◌≡◌, ◌+◌, ◌*◌, ◌<◌, ◌≤◌, length};
ghost use Rattle.cipher.specs.Lengths.{set_length, start_length, group_length};
ghost use Rattle.lists.specs.Tabulation.{chunks};
ghost use Rattle.lists.specs.Blocks.{zeros};
ghost use Rattle.cipher.specs.Coding.{set_of, coded};
ghost use Rattle.cipher.specs.Book.{group_part};
ghost use Rattle.table_maker.specs.Made.{three_keys};

use cipher::cmac::SubkeyPair;
use cipher::lengths;
use parts::in_parts;
use table_maker::folds::fold_tables;
use table_maker::inverted::InvertedSet;
use table_maker::sets::ChainSet;

// A byte of the start: the images of zero by the codings of its low half and of its high half.
fn start_byte(low: u8, high: u8) -> u8
    requires { (low < 16) × (high < 16) }
    ensures { result ≡ low + 16 * high }
{
    low + 16 * high
}

// The start: the zero block coded by the set last.
pub fn start(last: ChainSet, out: &mut [u8])
    requires { length out.old ≡ start_length }
    ensures { out.new ≡ coded (set_of last.entry.bytes.now) zeros }
{
    for (k, byte) in out.iter_mut().enumerate() {
        let at = 2 * lengths::CODING * k;
        *byte = start_byte(last.bytes[at], last.bytes[at + lengths::CODING]);
    }
}

// The three groups: folds from the set last and the message set to the set in the front of first,
// under no key, K1 and K2.
pub fn groups(last: ChainSet, message: ChainSet, first: &[u8], keys: SubkeyPair, out: &mut [u8])
    requires { (set_length ≤ length first.now) × (length out.old ≡ 3 * group_length) }
    ensures { out.new ≡ chunks 3 (λ g. group_part (set_of last.entry.bytes.now) (set_of message.entry.bytes.now) (set_of first.now)
        (three_keys keys.k1 keys.k2 g)) }
{
    let s = InvertedSet::of(last.bytes);
    let u = InvertedSet::of(message.bytes);
    let k1 = keys.k1;
    let k2 = keys.k2;
    let blocks = [[0u8; lengths::BLOCK], k1, k2];
    in_parts(out, lengths::GROUP, 3, |g, part| {
        fold_tables(&s, &u, first, blocks[g], part)
    });
}
