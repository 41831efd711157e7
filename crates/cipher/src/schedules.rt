// The two schedules, by their numbers (document 02, 2026-07), and the one way from a key to its rows of
// round keys.
ghost use Rattle.std.specs.Prelude.{◌≡◌, length};
ghost use Rattle.cipher.specs.KeySize.{key_length};
ghost use Rattle.cipher.specs.Schedules as S;

use crate::refusal::Refusal;
use crate::rows::RoundKeys;
use crate::size::KeySize;
use lea_schedule::schedule::{schedule16, schedule24, schedule32};
use wf_lea::rows;

// Their numbers. The C interface has them so.
pub const LEA: u8 = 0;

pub const WF_LEA: u8 = 1;

#[derive(Clone, Copy, Debug, PartialEq, Eq)]
pub enum Schedule {
    Lea,
    WfLea,
}

// The schedule with a number; any other number is refused (34).
impl TryFrom<u8> for Schedule {
    type Error = Refusal;

    ghost try_from_gives = { λ n r. r ≡ S.numbered n };

    fn try_from(number: u8) -> Result<Schedule, Refusal> {
        match number {
            LEA => Ok(Schedule::Lea),
            WF_LEA => Ok(Schedule::WfLea),
            _ => Err(Refusal::ScheduleNumber),
        }
    }
}

// A key of a known size, and its schedule.
#[derive(Clone, Copy)]
pub struct Key<'a> {
    pub schedule: Schedule,
    pub size: KeySize,
    pub bytes: &'a [u8],
    ghost fits: { length bytes.now ≡ key_length size },
}

impl<'a> Key<'a> {
    ghost use Rattle.cipher.specs.Keys.{key_told};

    // A key under the schedule with a number: the number (34), then the key's length (1), may be refused.
    pub fn of(schedule: u8, bytes: &'a [u8]) -> Result<Key<'a>, Refusal>
        ensures { key_told result ≡ S.key_read schedule bytes.now }
    {
        let schedule = Schedule::try_from(schedule)?;
        let size = KeySize::of_key_len(bytes.len()).ok_or(Refusal::KeyLength)?;
        Ok(Key {
            schedule,
            size,
            bytes,
        })
    }

    // The round keys of a key: whatever has a key takes its rows from here.
    pub fn round_keys(&self) -> RoundKeys
        ensures rows { result.rows ≡ S.key_rows self.now.schedule self.now.size self.now.bytes.now }
        ensures size { result.size ≡ self.now.size }
    {
        RoundKeys {
            rows: key_rows(self.schedule, self.size, self.bytes),
            size: self.size,
        }
    }
}

// The rows of a key of a size, by LEA's own schedule.
fn lea_rows(size: KeySize, key: &[u8]) -> [[u32; 6]; 32]
    requires { length key.now ≡ key_length size }
    ensures { result ≡ S.schedule size key.now }
{
    match size {
        KeySize::Bytes16 => schedule16(key),
        KeySize::Bytes24 => schedule24(key),
        KeySize::Bytes32 => schedule32(key),
    }
}

// The rows of a key of a size, by either.
pub fn key_rows(schedule: Schedule, size: KeySize, key: &[u8]) -> [[u32; 6]; 32]
    requires { length key.now ≡ key_length size }
    ensures { result ≡ S.key_rows schedule size key.now }
{
    match schedule {
        Schedule::Lea => lea_rows(size, key),
        Schedule::WfLea => rows(key, size.rounds()),
    }
}
