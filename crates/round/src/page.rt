// The text that is printed, in fixed memory.
ghost use Rattle.std.specs.Prelude.{◌≡◌, ◌≤◌, take};

// The bytes of two lines, the longest text: 2 and 3 in front of a block, 32 for it, a newline.
pub const LONGEST: usize = 2 + 3 + 2 * (32 + 1);

// The first `length` bytes of `text` are printed; after them are zeros. A length beside an array, as the
// program works in fixed memory, and `report_told` is of these two.
#[derive(Clone, Copy)]
pub struct Report {
    pub text: [u8; LONGEST],
    pub length: usize,
    ghost fits: { length ≤ 71 },
}

impl Report {
    // The bytes that are printed.
    pub fn bytes(&self) -> &[u8]
        ensures { result.now ≡ take self.now.length self.now.text }
    {
        &self.text[0..self.length]
    }
}
