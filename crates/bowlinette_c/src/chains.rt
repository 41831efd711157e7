// The chain maker (document 02, 2026-03), exported to C.
ghost use Rattle.std.specs.Prelude.{◌≡◌};
ghost use Rattle.bowlinette.specs.Into.{kept};
ghost use Rattle.maker.specs.Answers.{make_answer, make_reading_answer};

// A chain for a key of n bytes into the front of out, and how many random bytes were drawn into drawn.
#[unsafe(no_mangle)]
pub extern "C" fn bowlinette_make_chain(
    n: usize,
    random: &[u8],
    out: &mut [u8],
    drawn: &mut u64,
) -> u32
    ensures { ((result, drawn.new), out.new) ≡ kept (make_answer n random.now out.old) drawn.old }
{
    bowlinette::chains::bowlinette_make_chain(n, random, out, drawn)
}

// A reading chain for a key of n bytes, whose set 0 is given.
#[unsafe(no_mangle)]
pub extern "C" fn bowlinette_make_reading_chain(
    n: usize,
    set: &[u8],
    random: &[u8],
    out: &mut [u8],
    drawn: &mut u64,
) -> u32
    ensures { ((result, drawn.new), out.new) ≡ kept (make_reading_answer n set.now random.now out.old) drawn.old }
{
    bowlinette::chains::bowlinette_make_reading_chain(n, set, random, out, drawn)
}
