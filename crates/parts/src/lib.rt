// A buffer made of parts of one length, each written by a rule of its own: the loop stands here once, and the rule is its
// caller's closure.

#![tactic(auto)]

ghost use Rattle.std.specs.Prelude.{◌≡◌, List, ℕ, ◌*◌, ◌<◌, length};
ghost use Rattle.lists.specs.Tabulation.{chunks};

// The n parts of out, of len bytes each, one after another: fill is lent part p and writes it.
pub fn in_parts<F: Fn(usize, &mut [u8])>(out: &mut [u8], len: usize, n: usize, fill: F)
    requires called { (p : ℕ) (part : _) → p < n → length part.now ≡ len → F.pre fill p part }
    requires room { length out.old ≡ n * len }
    ensures { (g : ℕ → List ℕ) → ((p : ℕ) (part left : _) → p < n → length part.now ≡ len → F.post fill p part tt left → left.now ≡ g p)
        → out.new ≡ chunks n g }
{
    // By place: after chunks_exact_mut a proof knows the parts' lengths and not their bytes.
    let mut at: usize = 0;
    for p in 0..n {
        let to = at + len;
        fill(p, &mut out[at..to]);
        at = to;
    }
}
