// Lines of text on standard output.
use std::{fmt, io};

// Bytes as they are printed, in hex.
#[derive(Clone, Copy)]
struct Hex<'a>(&'a [u8]);

impl fmt::Display for Hex<'_> {
    fn fmt<W: fmt::Write>(&self, f: &mut fmt::Formatter<W>) -> fmt::Result {
        for byte in self.0 {
            write!(f, "{byte:02x}")?;
        }
        Ok(())
    }
}

// A line: a name, and what is said of it.
pub fn tell<T: fmt::Display + Copy>(rt: &impl Print, name: &str, what: T) -> io::Result<()> {
    println!(rt; "   {name:22}{what}")
}

// A line: a name, how many bytes, and the first and the last four of them.
pub fn show(rt: &impl Print, name: &str, bytes: &[u8]) -> io::Result<()> {
    let n = bytes.len();
    print!(rt; "   {name:22}{n:6} bytes")?;
    if 4 <= n {
        print!(rt; "  {} .. {}", Hex(&bytes[..4]), Hex(&bytes[n - 4..]))?;
    }
    println!(rt)
}
