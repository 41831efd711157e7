// Checks of a lone set and of a chain (01, "Chain of codings": coding, set, chain and mask are its
// terms). Each rule is tested by a function of its own; the checks ask for the rules in the order of
// the refusals.
ghost use Rattle.std.specs.Prelude.{◌≡◌, ◌+◌, ◌*◌, ◌<◌, ◌≤◌, length};
ghost use Rattle.cipher.specs.Lengths.{coding_length, round_codings_length, set_length};
ghost use Rattle.lists.specs.Refusals.{first};
ghost use Rattle.lists.specs.Every.{every};
ghost use Rattle.cipher.specs.Refusal.{outcome_of};
ghost use Rattle.cipher.specs.Coding.{coding_at};
ghost use Rattle.cipher.specs.Chain as C;
ghost use Rattle.cipher.specs.Answers.{set_checked, chain_checked};

use crate::lengths;
use crate::refusal::Refusal;
use crate::size::KeySize;
use seen::all_seen;

// Whether coding k of those in s is a permutation: whether all 16 values are seen in it.
fn is_permutation(s: &[u8], k: usize) -> bool
    requires { coding_length * k + coding_length ≤ length s.now }
    ensures { result ≡ C.is_one_to_one 16 16 (coding_at s.now k) }
{
    all_seen(s, lengths::CODING * k)
}

// Whether the first n codings in s are permutations.
fn are_permutations(s: &[u8], n: usize) -> bool
    requires { coding_length * n ≤ length s.now }
    ensures { result ≡ C.are_permutations n s.now }
{
    (0..n).all(|k| is_permutation(s, k))
}

// Whether word `to` of the set in after is coded as word `from` of the set in before. All bytes are
// looked at, since that is quicker than to stop at the first that differs. The words of a rule are
// numbers below 4 here, in words_kept and in check_rule: CLAIMS names the three.
pub fn word_kept(before: &[u8], from: usize, after: &[u8], to: usize) -> bool
    requires { (from < 4) × (to < 4) × (set_length ≤ length before.now) × (set_length ≤ length after.now) }
    ensures { result ≡ C.word_kept from to before.now after.now }
{
    let new = lengths::WORD * to;
    let old = lengths::WORD * from;
    after[new..new + lengths::WORD]
        .iter()
        .zip(before[old..old + lengths::WORD].iter())
        .fold(true, |kept, (x, y)| kept & (*x == *y))
}

// Whether the same holds between each set of a chain of r rounds and the next.
pub fn words_kept(chain: &[u8], r: usize, from: usize, to: usize) -> bool
    requires { (r ≤ 32) × (1024 + 920 * r ≤ length chain.now) × (from < 4) × (to < 4) }
    ensures { result ≡ C.words_kept from to r chain.now }
{
    (0..r).all(|set| word_kept(
        &chain[lengths::SET * (set + 1)..],
        from,
        &chain[lengths::SET * (set + 2)..],
        to,
    ))
}

// Whether the masks of a round hold, whose bytes s begins with.
fn masks_hold(s: &[u8]) -> bool
    requires { round_codings_length ≤ length s.now }
    ensures { result ≡ C.masks_hold s.now }
{
    (0..lengths::MIDDLES).all(|k| s[lengths::MASKS + k] < 2)
}

// A chain of r rounds. Whether its words are kept is told by words_kept, which is lent chain and rounds,
// since CLAIMS names it.
#[derive(Clone, Copy)]
struct Rounds<'a> {
    chain: &'a [u8],
    r: usize,
    ghost few: { r ≤ 32 },
    ghost whole: { 1024 + 920 * r ≤ length chain.now },
}

impl<'a> Rounds<'a> {
    // Whether the middle codings of every round are permutations.
    fn middles_permute(&self) -> bool
        ensures { let c = self.now in result ≡ every c.r (λ l. C.are_permutations 24 (C.round_bytes c.r c.chain.now l)) }
    {
        let sets = lengths::SET * (self.r + 2);
        let chain = self.chain;
        (0..self.r).all(|l| are_permutations(
            &chain[sets + lengths::ROUND_CODINGS * l..],
            lengths::MIDDLES,
        ))
    }

    // Whether all codings are permutations.
    fn codings_permute(&self) -> bool
        ensures { result ≡ C.coding_rule_holds self.now.r self.now.chain.now }
    {
        if !are_permutations(self.chain, lengths::SET_CODINGS * (self.r + 2)) {
            return false;
        }
        self.middles_permute()
    }

    // Whether the masks of every round hold.
    fn all_masks_hold(&self) -> bool
        ensures { result ≡ C.mask_rule_holds self.now.r self.now.chain.now }
    {
        let sets = lengths::SET * (self.r + 2);
        let chain = self.chain;
        (0..self.r).all(|l| masks_hold(&chain[sets + lengths::ROUND_CODINGS * l..]))
    }
}

// A lone set: its length (2), its codings (3).
pub fn check_set(set: &[u8]) -> Result<(), Refusal>
    ensures { outcome_of result ≡ set_checked set.now }
{
    if set.len() != lengths::SET {
        return Err(Refusal::ChainLength);
    }
    if !are_permutations(set, lengths::SET_CODINGS) {
        return Err(Refusal::NoPermutation);
    }
    Ok(())
}

// A chain for a key of a known size, with the word rule that goes from one word to another: its
// length (2), its codings (3), the word rule (4), its masks (5).
pub fn check_rule(size: KeySize, chain: &[u8], from: usize, to: usize) -> Result<(), Refusal>
    requires { (from < 4) × (to < 4) }
    ensures { outcome_of result ≡ first (C.chain_tests_by from to size chain.now) (λ n. n) 0 }
{
    if chain.len() != size.chain_len() {
        return Err(Refusal::ChainLength);
    }
    let r = size.rounds();
    let rounds = Rounds { chain, r };
    if !rounds.codings_permute() {
        return Err(Refusal::NoPermutation);
    }
    if !words_kept(chain, r, from, to) {
        return Err(Refusal::WordRule);
    }
    if !rounds.all_masks_hold() {
        return Err(Refusal::MaskByte);
    }
    Ok(())
}

// The same with the word 3 rule.
pub fn check_sized(size: KeySize, chain: &[u8]) -> Result<(), Refusal>
    ensures { outcome_of result ≡ first (C.chain_tests size chain.now) (λ n. n) 0 }
{
    check_rule(size, chain, 0, 3)
}

// A chain for a key of n bytes: the key's length (1), then as above.
pub fn check_chain(n: usize, chain: &[u8]) -> Result<(), Refusal>
    ensures { outcome_of result ≡ chain_checked n chain.now }
{
    let size = KeySize::of_key_len(n).ok_or(Refusal::KeyLength)?;
    check_sized(size, chain)
}
