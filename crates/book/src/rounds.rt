// The tables of the rounds of a book (document 01, "Book"): the codings of a round inverted once,
// then 24 add tables and 24 turn tables.
ghost use Rattle.std.specs.Prelude.{◌≡◌, ◌*◌, ◌<◌, length};
ghost use Rattle.cipher.specs.Lengths.{round_length};
ghost use Rattle.lists.specs.Tabulation.{chunks};
ghost use Rattle.cipher.specs.KeySize as S;
ghost use Rattle.cipher.specs.Chain.{Chain};
ghost use Rattle.cipher.specs.Book.{round_part, book_round};
ghost use Rattle.table_maker.specs.Made.{codings_of};

use cipher::lengths;
use cipher::rows::RoundKeys;
use parts::in_parts;
use table_maker::adds::add_tables;
use table_maker::inverted::{InvertedSet, InvertedWords};
use table_maker::rounds::Round;
use table_maker::turns::{Sealing, turn_tables};

// A round's tables, under the row k of round keys.
fn round_tables(round: Round, k: [u32; 6], out: &mut [u8])
    requires { length out.old ≡ round_length }
    ensures { out.new ≡ round_part (codings_of round.entry.before.now round.entry.after.now round.entry.middles.bytes.now) k }
{
    let s = InvertedSet::of(round.before);
    let m = InvertedWords::of(round.middles.bytes);
    add_tables(&s, round.middles, k, &mut out[0..lengths::TURNS]);
    turn_tables::<Sealing>(
        &m,
        round.after,
        &mut out[lengths::TURNS..lengths::ROUND_TABLES],
    );
}

// The tables of round l of a chain. `reading_book` has this and `round_parts` with a chain rule, a row and
// tables of its own: a trait for these three would be longer than the three lines that both have.
pub fn round_at(keys: RoundKeys, chain: &[u8], l: usize, out: &mut [u8])
    requires { Chain keys.size chain.now × (l < S.rounds keys.size) × (length out.old ≡ round_length) }
    ensures { out.new ≡ book_round (S.rounds keys.size) keys.rows chain.now l }
{
    let round = Round::of_chain(keys.size, chain, l);
    round_tables(round, keys.rows[l], out);
}

// The tables of all rounds. A valid chain is asked here and in build.rt, and is no type: with its round
// keys it would be one for this crate alone, since a reading chain is valid by another rule.
pub fn round_parts(keys: RoundKeys, chain: &[u8], out: &mut [u8])
    requires { Chain keys.size chain.now × (length out.old ≡ S.rounds keys.size * round_length) }
    ensures { out.new ≡ chunks (S.rounds keys.size) (book_round (S.rounds keys.size) keys.rows chain.now) }
{
    in_parts(out, lengths::ROUND_TABLES, keys.size.rounds(), |l, part| {
        round_at(keys, chain, l, part)
    });
}
