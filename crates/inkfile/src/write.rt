// Writing an ink file (document 02, 2026-02). The fields are judged record by record, then the buffer;
// only then is anything written.
ghost use Rattle.std.specs.Prelude.{◌≡◌, [], ◌∷◌, ◌+◌, ◌≤◌, length};
ghost use Rattle.lists.specs.Overlay.{overlaid};
ghost use Rattle.cipher.specs.Refusal.{outcome_of, written_of};
ghost use Rattle.inkfile.specs.Format as F;
ghost use Rattle.inkfile.specs.Writing as W;
ghost use Rattle.inkfile.specs.WritingSteps as S;

use crate::kind::{self, fault};
use crate::layout;
use cipher::refusal::Refusal;
use words::word::bytes_of;

// The fields as they are given: `kinds` has a byte for each remark, and the remark's bytes are the body
// of its number. Two lists side by side: the C interface gives them so, and there are bodies past the kinds.
#[derive(Clone, Copy)]
struct Given<'a> {
    number: &'a [u8],
    iv: &'a [u8],
    sealed: &'a [u8],
    tag: &'a [u8],
    kinds: &'a [u8],
    bodies: [&'a [u8]; 4],
}

// The head of a record of n bytes.
fn head(kind: u8, n: usize) -> [u8; 6]
    ensures { result ≡ F.head_of kind n }
{
    let b = bytes_of((n % 4294967296) as u32);
    [layout::MARK, kind, b[0], b[1], b[2], b[3]]
}

// Bytes copied into a buffer of their length. By a loop: copy_from_slice from one lent slice to another, of any length,
// calls memmove, which a program without a C library would have to bring.
fn put(out: &mut [u8], bytes: &[u8])
    requires { length out.old ≡ length bytes.now }
    ensures { out.new ≡ bytes.now }
{
    for (k, byte) in out.iter_mut().enumerate() {
        *byte = bytes[k];
    }
}

// A record over the bytes of out from a place on; the place behind it.
fn put_record(out: &mut [u8], at: usize, kind: u8, body: &[u8]) -> usize
    requires { at + F.head_length + length body.now ≤ length out.old }
    ensures { (result ≡ at + F.head_length + length body.now) × (out.new ≡ overlaid out.old at (F.record_of (kind, body.now))) }
{
    let h = head(kind, body.len());
    let start = at + layout::HEAD;
    let end = start + body.len();
    out[at..start].copy_from_slice(&h);
    put(&mut out[start..end], body);
    end
}

impl Given<'_> {
    // The first fault of the remarks; a fifth is one, whatever it is.
    fn remarks_fault(&self) -> Result<(), Refusal>
        ensures { outcome_of result ≡ S.remarks_fault (S.given self.now).remarks }
    {
        for (i, kind) in self.kinds.iter().enumerate() {
            let Some(body) = self.bodies.get(i) else {
                return Err(Refusal::BadRecord);
            };
            fault(4 + i, *kind, body.len())?;
        }
        Ok(())
    }

    // The first fault of the fields.
    fn fault(&self) -> Result<(), Refusal>
        ensures { outcome_of result ≡ S.fields_fault (S.given self.now) }
    {
        fault(0, kind::PAD_NUMBER, self.number.len())?;
        fault(1, kind::IV, self.iv.len())?;
        fault(2, kind::SEALED, self.sealed.len())?;
        fault(3, kind::TAG, self.tag.len())?;
        self.remarks_fault()
    }

    // How many bytes the remarks take.
    fn remarks_size(&self) -> usize
        requires few { length self.now.kinds.now ≤ 4 }
        requires short { S.bodies_size self.now ≤ 1044 }
        ensures { result ≡ S.bodies_size self.now }
    {
        self.bodies[0..self.kinds.len()]
            .iter()
            .map(|body| layout::HEAD + body.len())
            .sum()
    }

    // The first four records into the front of out; the place behind them.
    fn put_fixed(&self, out: &mut [u8]) -> usize
        requires { S.fixed_size (S.given self.now) ≤ length out.old }
        ensures { (result ≡ S.fixed_size (S.given self.now)) × (out.new ≡ overlaid out.old 0 (S.fixed_bytes (S.given self.now))) }
    {
        let a = put_record(out, 0, kind::PAD_NUMBER, self.number);
        let b = put_record(out, a, kind::IV, self.iv);
        let c = put_record(out, b, kind::SEALED, self.sealed);
        put_record(out, c, kind::TAG, self.tag)
    }

    // The remarks that are given, from a place on.
    fn put_remarks(&self, at: usize, out: &mut [u8])
        requires { (length self.now.kinds.now ≤ 4) × (at + S.remarks_size (S.given self.now).remarks ≤ length out.old) }
        ensures { out.new ≡ overlaid out.old at (S.remarks_bytes (S.given self.now).remarks) }
    {
        let mut at = at;
        for (kind, body) in self.kinds.iter().zip(&self.bodies) {
            at = put_record(out, at, *kind, body);
        }
    }
}

// The fields of an ink file written into the front of out. `kinds` has a byte for each remark; remarks
// past its length are not looked at. Ten parameters: the C interface has them so.
pub fn write_ink<'a>(
    number: &'a [u8],
    iv: &'a [u8],
    sealed: &'a [u8],
    tag: &'a [u8],
    kinds: &'a [u8],
    r0: &'a [u8],
    r1: &'a [u8],
    r2: &'a [u8],
    r3: &'a [u8],
    out: &mut [u8],
) -> Result<usize, Refusal>
    ensures { (written_of result, out.new)
        ≡ W.write_ink_answer (W.fields_given number.now iv.now sealed.now tag.now kinds.now (r0.now ∷ r1.now ∷ r2.now ∷ r3.now ∷ [])) out.old }
{
    let given = Given {
        number,
        iv,
        sealed,
        tag,
        kinds,
        bodies: [r0, r1, r2, r3],
    };
    given.fault()?;
    let n = layout::FIXED + sealed.len() + given.remarks_size();
    if out.len() < n {
        return Err(Refusal::ShortBuffer);
    }
    let at = given.put_fixed(out);
    given.put_remarks(at, out);
    Ok(n)
}
