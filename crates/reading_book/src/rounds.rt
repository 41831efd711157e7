// The tables of the rounds of a reading book (document 02, 2026-01): the codings of a round inverted once,
// then 24 turn tables and 24 subtract tables.
ghost use Rattle.std.specs.Prelude.{◌≡◌, ◌*◌, ◌<◌, length};
ghost use Rattle.cipher.specs.Lengths.{round_length};
ghost use Rattle.lists.specs.Tabulation.{chunks};
ghost use Rattle.cipher.specs.KeySize as S;
ghost use Rattle.reading.specs.Chain.{ReadingChain};
ghost use Rattle.reading.specs.Book.{reading_part, reading_book_round};
ghost use Rattle.table_maker.specs.Made.{codings_of};

use crate::subtracts::subtract_tables;
use crate::turns::Reading;
use cipher::lengths;
use cipher::rows::RoundKeys;
use parts::in_parts;
use reading::lengths::SUBTRACTS;
use table_maker::inverted::InvertedWords;
use table_maker::rounds::Round;
use table_maker::turns::turn_tables;

// A round's tables, under the row k of round keys. Of each set the words 0 to 2 are decoded.
fn round_tables(round: Round, k: [u32; 6], out: &mut [u8])
    requires { length out.old ≡ round_length }
    ensures { out.new ≡ reading_part (codings_of round.entry.before.now round.entry.after.now round.entry.middles.bytes.now) k }
{
    let s = InvertedWords::of(round.before);
    let m = InvertedWords::of(round.middles.bytes);
    let n = InvertedWords::of(round.after);
    turn_tables::<Reading>(&s, round.middles.bytes, &mut out[0..SUBTRACTS]);
    subtract_tables(&m, &n, round, k, &mut out[SUBTRACTS..lengths::ROUND_TABLES]);
}

// The tables of round l of a reading chain; the last row of round keys is that of round 0. Crate book
// says beside its own why this and `round_parts` are not one function with those.
fn round_at(keys: RoundKeys, chain: &[u8], l: usize, out: &mut [u8])
    requires { ReadingChain keys.size chain.now × (l < S.rounds keys.size) × (length out.old ≡ round_length) }
    ensures { out.new ≡ reading_book_round (S.rounds keys.size) keys.rows chain.now l }
{
    let r = keys.size.rounds();
    let round = Round::of_chain(keys.size, chain, l);
    round_tables(round, keys.rows[r - 1 - l], out);
}

// The tables of all rounds.
pub fn round_parts(keys: RoundKeys, chain: &[u8], out: &mut [u8])
    requires { ReadingChain keys.size chain.now × (length out.old ≡ S.rounds keys.size * round_length) }
    ensures { out.new ≡ chunks (S.rounds keys.size) (reading_book_round (S.rounds keys.size) keys.rows chain.now) }
{
    in_parts(out, lengths::ROUND_TABLES, keys.size.rounds(), |l, part| {
        round_at(keys, chain, l, part)
    });
}
