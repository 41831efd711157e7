// LEA's key schedule: 24, 28 or 32 rows of six round keys, by value. Rows past the rounds are zero.
// Each step takes its δ from the front of a queue, already turned by the step's count, and puts it at the end, turned for the
// step that it comes back in.
ghost use Rattle.std.specs.Prelude.{◌≡◌, ◌+◌, ◌<◌, ◌≤◌, [], ◌∷◌, ◌++◌, length, drop, slice_index};
ghost use Rattle.lists.specs.Tabulation.{tab};
ghost use Rattle.words.specs.Word.{rol, words4};
ghost use Rattle.lea_schedule.specs.Schedule as S;
ghost use Rattle.lea_schedule.specs.Steps.{deltas, FilledBy};

use words::word::{rotate_left, words_of};

// The constants δ0 to δ7, each turned left by its number, as the first steps take them.
const DELTAS: [u32; 8] = [
    0xc3efe9db, 0x88c4d604, 0xe789f229, 0xc6f98763, 0x15ea49e7, 0xf0bb4158, 0x13bc8ab8, 0xe204abf2,
];

const TURNS: [usize; 6] = [1, 3, 6, 11, 13, 17];

// Word t at place m of a step, d being the step's δ turned by the step's count.
#[tactic(auto, unfolding(crate::specs::Schedule::mixed, words::specs::Word::add))]
fn mixed(d: u32, m: usize, t: u32) -> u32
    requires { m < 6 }
    ensures { result ≡ S.mixed d 0 m t }
{
    rotate_left(t.wrapping_add(rotate_left(d, m)), TURNS[m])
}

// N words at the places of a step.
fn mixed_all<const N: usize>(d: u32, t: [u32; N]) -> [u32; N]
    requires { N ≤ 6 }
    ensures { result ≡ tab N (λ m. S.mixed d 0 m (slice_index t.entry m)) }
{
    std::array::from_fn(
        |m: usize| -> u32
            requires { (m < 6) × (m < N) }
            ensures { result ≡ S.mixed d 0 m (slice_index t m) }
        { mixed(d, m, t[m]) },
    )
}

// The queue of δ before the first step.
fn deltas<const N: usize>() -> [u32; N]
    requires { N ≤ 8 }
    ensures { result ≡ deltas N 0 }
{
    std::array::from_fn(|k| DELTAS[k])
}

// The queue of δ after a step: the first goes to the end, turned by as many as there are.
fn turned<const N: usize>(d: [u32; N]) -> [u32; N]
    requires { 0 < N }
    ensures { result ≡ drop 1 d.entry ++ (rol N (slice_index d.entry 0) ∷ []) }
{
    let last = rotate_left(d[0], N);
    std::array::from_fn(
        |k: usize| -> u32
            requires { k < N }
            ensures place { k + 1 < N → result ≡ slice_index d (k + 1) }
            ensures end { k + 1 ≡ N → result ≡ last }
        { if k + 1 < N { d[k + 1] } else { last } },
    )
}

// The rows of a key of N words: `mix` makes a step of the words by its δ, turned by the step's count, and `show` the step's row of
// the words after it.
fn rows_of<const N: usize, W: Copy, F: Fn(u32, W) -> W, G: Fn(W) -> [u32; 6]>(
    words: W,
    steps: usize,
    mix: F,
    show: G,
) -> [[u32; 6]; 32]
    requires size { (0 < N) × (N ≤ 8) }
    requires room { steps ≤ 32 }
    requires mixes { F.IsAlwaysCallable mix }
    requires shows { G.IsAlwaysCallable show }
    ensures { FilledBy N (F.post mix) (G.post show) steps words result }
{
    let mut rows = [[0u32; 6]; 32];
    let mut t = words;
    let mut d: [u32; N] = deltas();
    for row in rows[..steps].iter_mut() {
        // The queue is turned first: so the compiler needs fewer registers while it mixes.
        let first = d[0];
        d = turned(d);
        t = mix(first, t);
        *row = show(t);
    }
    rows
}

// The rows of a key of 16 bytes: a step changes all words, and word 1 stands three times in its row.
#[tactic(auto, unfolding(crate::specs::Schedule::row16))]
pub fn schedule16(key: &[u8]) -> [[u32; 6]; 32]
    requires { length key.now ≡ 16 }
    ensures { result ≡ S.filled S.step16 S.row16 24 (words4 key.now) }
{
    rows_of::<4, _, _, _>(
        words_of(key),
        24,
        mixed_all::<4>,
        |t: [u32; 4]| -> [u32; 6]
            ensures { result ≡ S.row16 0 t }
        { [t[0], t[1], t[2], t[1], t[3], t[1]] },
    )
}

// The rows of a key of 24 bytes: a step changes all words, and they are its row.
pub fn schedule24(key: &[u8]) -> [[u32; 6]; 32]
    requires { length key.now ≡ 24 }
    ensures { result ≡ S.filled S.step24 S.row24 28 (S.words6 key.now) }
{
    rows_of::<6, _, _, _>(
        words_of(key),
        28,
        mixed_all::<6>,
        |t: [u32; 6]| -> [u32; 6]
            ensures { result ≡ t }
        { t },
    )
}

// The rows of a key of 32 bytes. The words too are a queue: a step takes six, and puts them at the end, mixed.
#[tactic(auto, unfolding(lists::specs::Tabulation::tab, crate::specs::Schedule::mixed_row))]
pub fn schedule32(key: &[u8]) -> [[u32; 6]; 32]
    requires { length key.now ≡ 32 }
    ensures { result ≡ S.filled S.step32 S.row32 32 (S.words8 key.now) }
{
    rows_of::<8, _, _, _>(
        words_of(key),
        32,
        |d: u32, t: [u32; 8]| -> [u32; 8]
            ensures { result ≡ slice_index t 6 ∷ slice_index t 7 ∷ S.mixed_row d 0 t }
        {
            let r = mixed_all(d, [t[0], t[1], t[2], t[3], t[4], t[5]]);
            [t[6], t[7], r[0], r[1], r[2], r[3], r[4], r[5]]
        },
        |t: [u32; 8]| -> [u32; 6]
            ensures { result ≡ tab 6 (λ k. slice_index t (k + 2)) }
        { [t[2], t[3], t[4], t[5], t[6], t[7]] },
    )
}
