// Tables as rows of sixteen entries. What an entry needs of its row's operand and of its own is
// worked out beforehand, so that an entry is one sum or one xor, one look-up and one store.
ghost use Rattle.std.specs.Prelude.{◌≡◌, ℕ, ◌+◌, ◌*◌, ◌<◌, ◌≤◌, length};
ghost use Rattle.std.specs.Int.Bits.{bit_xor};
ghost use Rattle.table_maker.specs.Rows.{row_by, table_by, RowFits, TableFits};

use cipher::lengths;
use parts::in_parts;

// Where an entry is looked up: what an operation makes of its row's operand and its own.
pub trait Operation {
    ghost op: { ℕ → ℕ → ℕ };

    fn of(s: usize, b: usize) -> usize
        requires { (s < 256) × (b < 256) }
        ensures { result ≡ op s b };
}

// A table that is read at sums.
pub struct Sum;

impl Operation for Sum {
    ghost op = { ◌+◌ };

    fn of(s: usize, b: usize) -> usize {
        s + b
    }
}

// A table that is read at xors.
pub struct Xor;

impl Operation for Xor {
    ghost op = { bit_xor };

    fn of(s: usize, b: usize) -> usize {
        s ^ b
    }
}

// A row: s is the row's operand, b has those of its entries.
fn row<O: Operation>(e: &[u8], s: u8, b: &[u8], out: &mut [u8])
    requires { (16 ≤ length b.now) × (length out.old ≡ 16) × RowFits O.op e.now s b.now }
    ensures { out.new ≡ row_by O.op e.now s b.now }
{
    let at = usize::from(s);
    for (q, entry) in out.iter_mut().enumerate() {
        *entry = e[O::of(at, usize::from(b[q]))];
    }
}

// The table of the rows whose operands a has.
pub fn table<O: Operation>(e: &[u8], a: &[u8], b: &[u8], out: &mut [u8])
    requires { (16 ≤ length b.now) × (length out.old ≡ length a.now * 16) × TableFits O.op e.now a.now b.now }
    ensures { out.new ≡ table_by O.op e.now a.now b.now }
{
    in_parts(
        out,
        lengths::VALUES,
        a.len(),
        |x, part| row::<O>(e, a[x], b, part),
    );
}
