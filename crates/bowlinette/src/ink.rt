// Ink files (document 02, 2026-02), for C programs.
ghost use Rattle.std.specs.Prelude.{◌≡◌, [], ◌∷◌, Ok};
ghost use Rattle.bowlinette.specs.Into.{into, kept};
ghost use Rattle.bowlinette.specs.Ink.{ink_numbers};
ghost use Rattle.inkfile.specs.Reading.{read_ink_answer};
ghost use Rattle.inkfile.specs.ReadingSteps.{ink_told};
ghost use Rattle.inkfile.specs.Writing.{fields_given, write_ink_answer};

use crate::{deliver, deliver_length};
use inkfile::read::Ink;

// What is told of an ink file as 18 numbers: the places of pad number, IV, sealed blocks, the length of
// these, the place of the tag, the number of remarks, and four kinds, places and lengths of remarks.
fn numbers(ink: Ink) -> [u64; 18]
    ensures { result ≡ (ink_numbers (ink_told (Ok ink))).1 }
{
    let [r0, r1, r2, r3] = ink.remarks;
    [
        ink.pad_number as u64,
        ink.iv as u64,
        ink.sealed as u64,
        ink.sealed_length as u64,
        ink.tag as u64,
        ink.count as u64,
        r0.kind as u64,
        r1.kind as u64,
        r2.kind as u64,
        r3.kind as u64,
        r0.offset as u64,
        r1.offset as u64,
        r2.offset as u64,
        r3.offset as u64,
        r0.length as u64,
        r1.length as u64,
        r2.length as u64,
        r3.length as u64,
    ]
}

// Where the fields of an ink file stand, into ink.
pub fn bowlinette_read_ink(file: &[u8], ink: &mut [u64; 18]) -> u32
    ensures { (result, ink.new) ≡ into (ink_numbers (read_ink_answer file.now)) ink.old }
{
    deliver(inkfile::read::read_ink(file).map(numbers), ink)
}

// The fields of an ink file written into the front of out, and the length of the file into length.
pub fn bowlinette_write_ink(
    number: &[u8],
    iv: &[u8],
    sealed: &[u8],
    tag: &[u8],
    kinds: &[u8],
    r0: &[u8],
    r1: &[u8],
    r2: &[u8],
    r3: &[u8],
    out: &mut [u8],
    length: &mut u64,
) -> u32
    ensures { ((result, length.new), out.new)
        ≡ kept (write_ink_answer (fields_given number.now iv.now sealed.now tag.now kinds.now (r0.now ∷ r1.now ∷ r2.now ∷ r3.now ∷ [])) out.old) length.old }
{
    let written = inkfile::write::write_ink(number, iv, sealed, tag, kinds, r0, r1, r2, r3, out);
    deliver_length(written, length)
}
