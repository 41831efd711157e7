// The check of a reading chain (document 02, 2026-01): a chain whose word rule goes from word 3 to word 0.
ghost use Rattle.std.specs.Prelude.{◌≡◌};
ghost use Rattle.cipher.specs.Refusal.{outcome_of};
ghost use Rattle.reading_book.specs.Answers.{reading_chain_checked};

use cipher::chain::check_rule;
use cipher::refusal::Refusal;
use cipher::size::KeySize;

// A reading chain for a key of n bytes: the key's length (1), its own length (2), its codings (3), the
// word rule (4), its masks (5).
pub fn check_reading_chain(n: usize, chain: &[u8]) -> Result<(), Refusal>
    ensures { outcome_of result ≡ reading_chain_checked n chain.now }
{
    let size = KeySize::of_key_len(n).ok_or(Refusal::KeyLength)?;
    check_rule(size, chain, 3, 0)
}
