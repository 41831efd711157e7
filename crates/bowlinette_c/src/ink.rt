// Ink files (document 02, 2026-02), exported to C.
ghost use Rattle.std.specs.Prelude.{◌≡◌, [], ◌∷◌};
ghost use Rattle.bowlinette.specs.Into.{into, kept};
ghost use Rattle.bowlinette.specs.Ink.{ink_numbers};
ghost use Rattle.inkfile.specs.Reading.{read_ink_answer};
ghost use Rattle.inkfile.specs.Writing.{fields_given, write_ink_answer};

// Where the fields of an ink file stand, into ink.
#[unsafe(no_mangle)]
pub extern "C" fn bowlinette_read_ink(file: &[u8], ink: &mut [u64; 18]) -> u32
    ensures { (result, ink.new) ≡ into (ink_numbers (read_ink_answer file.now)) ink.old }
{
    bowlinette::ink::bowlinette_read_ink(file, ink)
}

// The fields of an ink file written into the front of out, and the length of the file into length.
#[unsafe(no_mangle)]
pub extern "C" fn bowlinette_write_ink(
    number: &[u8],
    iv: &[u8],
    sealed: &[u8],
    tag: &[u8],
    kinds: &[u8],
    r0: &[u8],
    r1: &[u8],
    r2: &[u8],
    r3: &[u8],
    out: &mut [u8],
    length: &mut u64,
) -> u32
    ensures { ((result, length.new), out.new)
        ≡ kept (write_ink_answer (fields_given number.now iv.now sealed.now tag.now kinds.now (r0.now ∷ r1.now ∷ r2.now ∷ r3.now ∷ [])) out.old) length.old }
{
    bowlinette::ink::bowlinette_write_ink(
        number, iv, sealed, tag, kinds, r0, r1, r2, r3, out, length,
    )
}
