// How many bytes the draws of a chain need (document 02, 2026-03). Nothing is written here: which bytes
// are skipped is decided by the bytes and their order alone. Each function but the last moves a source
// on; places behind the end are bounded as in `coding_maker`. That fill.rt has one beside each is kept: they
// differ in what is done with a number, not in a type or a size, and one over both would need laws for that.
ghost use Rattle.std.specs.Prelude.{◌≡◌, ◌≤◌};
ghost use Rattle.coding_maker.specs.Parts.{begins};
ghost use Rattle.coding_maker.specs.Source.{past, Near};
ghost use Rattle.maker.specs.Planned.{planned};
ghost use Rattle.maker.specs.MadeChain as M;

use crate::plan::Plan;
use cipher::lengths;
use coding_maker::draw::Source;
use coding_maker::numbers::Numbers;

// Behind the draws of coding k of U and the sets.
fn set_use(source: &mut Source, plan: &Plan, k: usize)
    requires { Near 1000000 source.old }
    ensures { source.new ≡ past (M.set_use (planned plan.now) k) source.old }
{
    if plan.fixes(k) {
        return;
    }
    if plan.gives(k) {
        return;
    }
    source.coding_draws();
}

// Behind those of the first n codings of U and the sets.
fn sets_draw(source: &mut Source, plan: &Plan, n: usize)
    requires { (n ≤ 1088) × Near 0 source.old }
    ensures { source.new ≡ past (begins (M.set_use (planned plan.now)) n) source.old }
{
    for k in 0..n {
        set_use(source, plan, k);
    }
}

// Behind those of the middle codings of a round.
fn middles_draw(source: &mut Source)
    requires { Near 100000 source.old }
    ensures { source.new ≡ past M.middles_draw source.old }
{
    for _ in 0..lengths::MIDDLES {
        source.coding_draws();
    }
}

// Behind those of a round: a byte for each mask.
fn round_draws(source: &mut Source)
    requires { Near 100000 source.old }
    ensures { source.new ≡ past M.round_draws source.old }
{
    middles_draw(source);
    source.skip(lengths::MIDDLES);
}

// Behind those of r rounds.
fn rounds_draw(source: &mut Source, r: usize)
    requires { (r ≤ 32) × Near 50000 source.old }
    ensures { source.new ≡ past (M.rounds_draw r) source.old }
{
    for _ in 0..r {
        round_draws(source);
    }
}

// How many bytes a chain of r rounds draws.
pub fn chain_draws(numbers: &Numbers, random: &[u8], plan: &Plan, r: usize) -> usize
    requires { r ≤ 32 }
    ensures { result ≡ M.chain_draws (planned plan.now) r random.now }
{
    let mut source = Source::new(numbers, random);
    sets_draw(&mut source, plan, lengths::SET_CODINGS * (r + 2));
    rounds_draw(&mut source, r);
    source.at
}
