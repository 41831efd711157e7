// Reading an ink file (document 02, 2026-02): where its fields stand. Only the heads of records are
// looked at.
ghost use Rattle.std.specs.Prelude.{◌≡◌, ◌+◌, ◌≤◌, length};
ghost use Rattle.inkfile.specs.Format.{head_length};
ghost use Rattle.inkfile.specs.Reading as R;
ghost use Rattle.inkfile.specs.ReadingSteps as S;

use crate::kind::fault;
use crate::layout;
use cipher::refusal::Refusal;
use words::word::word_at;

// The head of a record: its kind byte, and how many bytes follow.
#[derive(Clone, Copy)]
pub struct Head {
    pub kind: u8,
    pub length: usize,
}

// A record of a file: its kind byte, and where its bytes stand.
#[derive(Clone, Copy)]
pub struct Record {
    pub kind: u8,
    pub offset: usize,
    pub length: usize,
}

// The records of a file in order, as many as there are; zeros behind them.
// An array and a count: the product works in fixed memory.
#[derive(Clone, Copy)]
pub struct Records {
    pub count: usize,
    pub all: [Record; 8],
}

// Where the fields of an ink file stand: places of the first four, the length of the sealed blocks, the
// number of remarks, and their records. Zeros where there is nothing.
#[derive(Clone, Copy)]
pub struct Ink {
    pub pad_number: usize,
    pub iv: usize,
    pub sealed: usize,
    pub sealed_length: usize,
    pub tag: usize,
    pub count: usize,
    pub remarks: [Record; 4],
}

// The length of the record that starts at a place.
fn length_at(file: &[u8], at: usize) -> usize
    requires { at + head_length ≤ length file.now }
    ensures { result ≡ R.length_at file.now at }
{
    word_at(file, at + 2) as usize
}

// Record k of a file, which starts at a place.
fn record_at(file: &[u8], k: usize, at: usize) -> Result<Head, Refusal>
    requires { at ≤ length file.now }
    ensures { S.seen_told result ≡ S.seen_answer file.now k at }
{
    let left = file.len() - at;
    if left < layout::HEAD {
        return Err(Refusal::BadRecord);
    }
    if file[at] != layout::MARK {
        return Err(Refusal::BadRecord);
    }
    let kind = file[at + 1];
    let n = length_at(file, at);
    fault(k, kind, n)?;
    if left - layout::HEAD < n {
        return Err(Refusal::RecordLength);
    }
    Ok(Head { kind, length: n })
}

// Whether a file of which some bytes are left goes on behind k records.
#[tactic(auto, using(std::proofs::lemmas::Bool::Decides::nat_tests), unfolding(crate::specs::ReadingSteps::goes_on))]
fn goes_on(left: usize, k: usize) -> bool
    ensures { result ≡ S.goes_on left k }
{
    if k < 4 {
        return true;
    }
    left != 0
}

// All records of a file; a ninth is refused, whatever it is.
fn all_records(file: &[u8]) -> Result<Records, Refusal>
    ensures { S.records_told result ≡ S.records_answer file.now }
{
    let nothing = Record {
        kind: 0,
        offset: 0,
        length: 0,
    };
    let mut all = [nothing; 8];
    let mut at = 0;
    let mut count = 0;
    // By a while: only the records' lengths say how many there are.
    while goes_on(file.len() - at, count) {
        let head = record_at(file, count, at)?;
        let offset = at + layout::HEAD;
        all[count] = Record {
            kind: head.kind,
            offset,
            length: head.length,
        };
        at = offset + head.length;
        count += 1;
    }
    Ok(Records { count, all })
}

// Where the fields of an ink file stand.
pub fn read_ink(file: &[u8]) -> Result<Ink, Refusal>
    ensures { S.ink_told result ≡ R.read_ink_answer file.now }
{
    let found = all_records(file)?;
    let [pad_number, iv, sealed, tag, r0, r1, r2, r3] = found.all;
    Ok(Ink {
        pad_number: pad_number.offset,
        iv: iv.offset,
        sealed: sealed.offset,
        sealed_length: sealed.length,
        tag: tag.offset,
        count: found.count.saturating_sub(4),
        remarks: [r0, r1, r2, r3],
    })
}
