// WF-LEA's key schedule (document 000, chapter 2, section 3): each row is cut from one digest, of the key and one
// byte more, which is the number of the row counted from 1.

#![tactic(auto)]

ghost use Rattle.std.specs.Prelude.{◌≡◌, ◌≤◌, length};
ghost use Rattle.sha256.specs.Sha256.{sha256};
ghost use Rattle.wf_lea.specs.WfLea as R;

use sha256::block::copied;
use sha256::digest;
use words::word::words_of;

// The first six words of the digest of m.
#[tactic(auto, unfolding(crate::specs::WfLea::first_six))]
fn row(m: &[u8]) -> [u32; 6]
    requires { length m.now ≤ 55 }
    ensures { result ≡ R.first_six (sha256 m.now) }
{
    words_of(&digest(m))
}

// The first n rows of a key, then blank ones.
pub fn rows(key: &[u8], n: usize) -> [[u32; 6]; 32]
    requires { (length key.now ≤ 54) × (n ≤ 32) }
    ensures { result ≡ R.rows key.now n }
{
    let k = key.len();
    let mut m = copied(key);
    let mut rows = [[0u32; 6]; 32];
    for (l, r) in rows[0..n].iter_mut().enumerate() {
        m[k] = (l + 1) as u8;
        *r = row(&m[0..k + 1]);
    }
    rows
}
