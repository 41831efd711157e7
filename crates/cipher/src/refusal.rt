// What an operation refuses, by the numbers of documents 01 and 02.
ghost use Rattle.std.specs.Prelude.{◌≡◌};
ghost use Rattle.cipher.specs.Refusal.{number_of, outcome_of};

use std::error::Error;
use std::fmt;

#[derive(Clone, Copy, Debug, PartialEq, Eq)]
pub enum Refusal {
    KeyLength,
    ChainLength,
    NoPermutation,
    WordRule,
    MaskByte,
    BookLength,
    BlockLength,
    MessageLength,
    ShortBuffer,
    KindByte,
    BadPadding,
    SessionFinished,
    SessionFull,
    BadRecord,
    RecordLength,
    ShortRandom,
    SizeByte,
    ScheduleNumber,
}

impl From<Refusal> for u32 {
    ghost from_gives = { λ why n. n ≡ number_of why };

    fn from(why: Refusal) -> u32 {
        match why {
            Refusal::KeyLength => 1,
            Refusal::ChainLength => 2,
            Refusal::NoPermutation => 3,
            Refusal::WordRule => 4,
            Refusal::MaskByte => 5,
            Refusal::BookLength => 6,
            Refusal::BlockLength => 7,
            Refusal::MessageLength => 8,
            Refusal::ShortBuffer => 9,
            Refusal::KindByte => 10,
            Refusal::BadPadding => 11,
            Refusal::SessionFinished => 21,
            Refusal::SessionFull => 22,
            Refusal::BadRecord => 30,
            Refusal::RecordLength => 31,
            Refusal::ShortRandom => 32,
            Refusal::SizeByte => 33,
            Refusal::ScheduleNumber => 34,
        }
    }
}

impl fmt::Display for Refusal {
    fn fmt<W: fmt::Write>(&self, f: &mut fmt::Formatter<W>) -> fmt::Result {
        write!(f, "refused {}", u32::from(*self))
    }
}

impl Error for Refusal {}

// An outcome as a number, for the C interface: 0 where the operation was done, else the refusal's.
pub fn number(outcome: Result<(), Refusal>) -> u32
    ensures { result ≡ outcome_of outcome }
{
    match outcome {
        Ok(()) => 0,
        Err(why) => why.into(),
    }
}
