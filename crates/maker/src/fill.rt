// The parts of a chain, drawn into a buffer in the order in which they stand (document 02, 2026-03). Each
// function that draws moves a source on. A source and a plan are no struct of both: of the functions here and in
// count.rt, those of the rounds and their parts draw from a source and have no plan.
ghost use Rattle.std.specs.Prelude.{◌≡◌, cond, false, ◌++◌, ◌+◌, ◌*◌, ◌≤◌, length, take, drop};
ghost use Rattle.lists.specs.Tabulation.{chunks};
ghost use Rattle.cipher.specs.Lengths.{coding_length, middles_length, round_codings_length};
ghost use Rattle.coding_maker.specs.Parts.{begins};
ghost use Rattle.coding_maker.specs.Source.{rest, past, Near};
ghost use Rattle.maker.specs.Plan as P;
ghost use Rattle.maker.specs.Planned.{planned};
ghost use Rattle.maker.specs.MadeChain as M;

use crate::plan::Plan;
use cipher::block::{block_at, put_block};
use cipher::lengths;
use coding_maker::draw::Source;

// Coding k of U and the sets where the word rule does not fix it, given or drawn, into out.
fn free_coding(source: &mut Source, plan: &Plan, k: usize, out: &mut [u8])
    requires { Near 1000000 source.old × (k ≤ 1088) × (length out.old ≡ coding_length) × (P.fixed_coding (planned plan.now) k ≡ false) }
    ensures { (source.new ≡ past (M.set_use (planned plan.now) k) source.old) × (out.new ≡ M.free_coding (planned plan.now) k (rest source.old)) }
{
    if plan.gives(k) {
        let a = lengths::CODING * (k - lengths::SET_CODINGS);
        out.copy_from_slice(&plan.given[a..a + lengths::CODING]);
        return;
    }
    source.draw_coding(out);
}

// Coding k of U and the sets, into its place in out: taken over from the set before, or free.
fn set_coding(source: &mut Source, plan: &Plan, k: usize, out: &mut [u8])
    requires { Near 1000000 source.old × (k ≤ 1088) × (coding_length * k + coding_length ≤ length out.old) }
    ensures { let p = planned plan.now in (source.new ≡ past (M.set_use p k) source.old)
        × (out.new ≡ take (coding_length * k) out.old
        ++ cond (P.fixed_coding p k) (take coding_length (drop (coding_length * P.source p k) out.old)) (M.free_coding p k (rest source.old))
        ++ drop (coding_length * k + coding_length) out.old) }
{
    let here = lengths::CODING * k;
    if plan.fixes(k) {
        let from = k + lengths::HALVES * plan.from
            - (lengths::SET_CODINGS + lengths::HALVES * plan.to);
        let coding = block_at(out, lengths::CODING * from);
        put_block(out, here, coding);
        return;
    }
    let end = here + lengths::CODING;
    free_coding(source, plan, k, &mut out[here..end]);
}

// The first n codings of U and the sets.
pub fn draw_sets(source: &mut Source, plan: &Plan, n: usize, out: &mut [u8])
    requires { (n ≤ 1088) × Near 0 source.old × (length out.old ≡ n * coding_length) }
    ensures { let p = planned plan.now in (source.new ≡ past (begins (M.set_use p) n) source.old) × (out.new ≡ chunks n (M.set_coding p (rest source.old))) }
{
    for k in 0..n {
        set_coding(source, plan, k, out);
    }
}

// The middle codings of a round.
fn draw_middles(source: &mut Source, out: &mut [u8])
    requires { Near 100000 source.old × (length out.old ≡ middles_length) }
    ensures { (source.new ≡ past M.middles_draw source.old) × (out.new ≡ M.middles_from (rest source.old)) }
{
    // Not by in_parts: its closure changes nothing but its part, and each part moves the source on. Nor by
    // chunks_exact_mut: after it a proof knows the parts' lengths and not their bytes. Nor by CODING * k: that was
    // tried here and in draw_rounds, and making a chain took 1.07 of its time.
    let mut a: usize = 0;
    for k in 0..lengths::MIDDLES {
        let e = a + lengths::CODING;
        source.draw_coding(&mut out[a..e]);
        a = e;
    }
}

// The masks of a round: the lowest bits of the next bytes.
fn draw_masks(source: &mut Source, out: &mut [u8])
    requires { Near 200000 source.old × (length out.old ≡ 24) }
    ensures { (source.new ≡ past (λ s. 24) source.old) × (out.new ≡ M.masks_from (rest source.old)) }
{
    // k is for the proof: the masks before it are drawn.
    for (k, mask) in out.iter_mut().enumerate() {
        *mask = source.byte() % 2;
    }
}

// A round: its middle codings, then its masks.
fn draw_round(source: &mut Source, out: &mut [u8])
    requires { Near 100000 source.old × (length out.old ≡ round_codings_length) }
    ensures { (source.new ≡ past M.round_draws source.old) × (out.new ≡ M.round_from (rest source.old)) }
{
    draw_middles(source, &mut out[0..lengths::MASKS]);
    draw_masks(source, &mut out[lengths::MASKS..lengths::ROUND_CODINGS]);
}

// The rounds, one after another.
pub fn draw_rounds(source: &mut Source, r: usize, out: &mut [u8])
    requires { (r ≤ 32) × Near 50000 source.old × (length out.old ≡ r * round_codings_length) }
    ensures { (source.new ≡ past (M.rounds_draw r) source.old) × (out.new ≡ M.rounds_from r (rest source.old)) }
{
    // Not by in_parts nor by ROUND_CODINGS * l, as in draw_middles.
    let mut a: usize = 0;
    for l in 0..r {
        let e = a + lengths::ROUND_CODINGS;
        draw_round(source, &mut out[a..e]);
        a = e;
    }
}
