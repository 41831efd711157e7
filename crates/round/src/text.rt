// What the round program prints: two lines, or a refusal.
ghost use Rattle.std.specs.Prelude.{◌≡◌, ◌++◌, ◌≤◌, ◌<◌, length, drop};
ghost use Rattle.round.specs.Digits.{hex_digit_ascii};
ghost use Rattle.round.specs.Text.{line, decimal, refused_text, shown, report_told};

use crate::page::{LONGEST, Report};
use hex::encode_to_slice;

// A decimal digit in ASCII.
#[tactic(auto, using(std::proofs::lemmas::Bool::Decides::nat_tests))]
fn digit(d: usize) -> u8
    requires { d < 10 }
    ensures { result ≡ hex_digit_ascii d }
{
    b'0' + d as u8
}

// The two lines: one for round 1 and its opened block, one for round r, a number of two digits, and
// its own.
pub fn two_lines(first: [u8; 16], r: usize, last: [u8; 16]) -> Report
    ensures { report_told result ≡ shown (line 1 1 first ++ line 2 r last) }
{
    let mut text = [0u8; LONGEST];
    text[0] = b'1';
    text[1] = b' ';
    text[34] = b'\n';
    text[35] = digit(r / 10 % 10);
    text[36] = digit(r % 10);
    text[37] = b' ';
    text[70] = b'\n';
    encode_to_slice(last, &mut text[38..70]).unwrap();
    encode_to_slice(first, &mut text[2..34]).unwrap();
    Report {
        text,
        length: LONGEST,
    }
}

// A number in decimal into the front of a part, and how many digits it has.
// By hand: edit digits_skipped leaves out digits in the recursion, and `itoa`'s one call has no such step.
#[tactic(auto, using(crate::proofs::TextLaws::decimal_some, crate::proofs::TextLaws::decimal_longer))]
fn put_decimal(n: u32, out: &mut [u8]) -> usize
    requires { length (decimal n) ≤ length out.old }
    ensures { (result ≡ length (decimal n)) × (out.new ≡ decimal n ++ drop result out.old) }
{
    if n < 10 {
        out[0] = digit(n as usize);
        return 1;
    }
    let k = put_decimal(n / 10, out);
    out[k] = digit((n % 10) as usize);
    k + 1
}

// A refusal, by its number.
#[tactic(auto, using(crate::proofs::TextLaws::decimal_ten))]
pub fn refused(n: u32) -> Report
    ensures { report_told result ≡ shown (refused_text n) }
{
    let mut text = [0u8; LONGEST];
    text[0..8].copy_from_slice(b"refused ");
    let end = 8 + put_decimal(n, &mut text[8..LONGEST]);
    text[end] = b'\n';
    Report {
        text,
        length: end + 1,
    }
}
