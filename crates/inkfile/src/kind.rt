// The kinds of records (document 02, 2026-02), and what is refused of a record by its kind.
ghost use Rattle.std.specs.Prelude.{◌≡◌, ok_or};
ghost use Rattle.cipher.specs.Refusal.{outcome_of};
ghost use Rattle.cipher.specs.declared.refusal.Refusal.TheVariants.{BadRecord};
ghost use Rattle.inkfile.specs.Kinds as K;

use crate::layout;
use cipher::block::bad_text;
use cipher::lengths;
use cipher::refusal::Refusal;

// The kind bytes of the first four records; those of remarks are 0x10 to 0x1f.
pub const PAD_NUMBER: u8 = 0x01;

pub const IV: u8 = 0x02;

pub const SEALED: u8 = 0x03;

pub const TAG: u8 = 0x04;

// What a record is, by its kind byte.
#[derive(Clone, Copy)]
pub enum Kind {
    PadNumber,
    Iv,
    Sealed,
    Tag,
    Remark,
}

// The kind that a byte stands for.
impl TryFrom<u8> for Kind {
    type Error = Refusal;

    ghost try_from_gives = { λ b r. r ≡ ok_or (K.kind_of b) BadRecord };

    #[tactic(auto, using(std::proofs::lemmas::Bool::Decides::nat_tests), unfolding(crate::specs::Kinds::kind_of))]
    fn try_from(b: u8) -> Result<Kind, Refusal> {
        match b {
            PAD_NUMBER => Ok(Kind::PadNumber),
            IV => Ok(Kind::Iv),
            SEALED => Ok(Kind::Sealed),
            TAG => Ok(Kind::Tag),
            0x10..=0x1f => Ok(Kind::Remark),
            0x00 | 0x05..=0x0f | 0x20..=0xff => Err(Refusal::BadRecord),
        }
    }
}

impl Kind {
    // Whether a record of the kind may be record k of a file, counted from 0.
    #[tactic(auto, unfolding(crate::specs::Kinds::due))]
    fn is_due(self, k: usize) -> bool
        ensures { result ≡ K.due (Some self) k }
    {
        match self {
            Kind::PadNumber => k == 0,
            Kind::Iv => k == 1,
            Kind::Sealed => k == 2,
            Kind::Tag => k == 3,
            Kind::Remark => 4 <= k && k < 8,
        }
    }

    // Whether a record of the kind may have n bytes.
    #[tactic(auto, unfolding(crate::specs::Kinds::sized))]
    fn may_have(self, n: usize) -> bool
        ensures { result ≡ K.sized (Some self) n }
    {
        match self {
            Kind::PadNumber => n == layout::PAD_NUMBER,
            Kind::Iv => n == lengths::BLOCK,
            Kind::Sealed => !bad_text(n),
            Kind::Tag => n == lengths::BLOCK,
            Kind::Remark => n <= layout::LONGEST_REMARK,
        }
    }
}

// The fault of a record k with a kind byte and n bytes.
pub fn fault(k: usize, kind: u8, n: usize) -> Result<(), Refusal>
    ensures { outcome_of result ≡ K.fault_of k kind n }
{
    let known = Kind::try_from(kind)?;
    let placed = known.is_due(k);
    let measured = known.may_have(n);
    if !placed {
        return Err(Refusal::BadRecord);
    }
    if !measured {
        return Err(Refusal::RecordLength);
    }
    Ok(())
}
