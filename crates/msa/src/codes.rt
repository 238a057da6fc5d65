// The numbers that C is answered.
ghost use Rattle.std.specs.Prelude.{◌≡◌};
ghost use Rattle.msa.specs.Codes.{code_of, why_code};
ghost use Rattle.msa.specs.declared.codes.TheConstants.{ABI};

use ct_call::{FsError, Why};

pub const DEAD: u32 = 65;

pub const FAULT: u32 = 64;

/// The file could not be measured or read.
pub const NO_FILE: u32 = 66;

pub const NO_MEMORY: u32 = 67;

/// Somebody else has the lock on the file.
pub const LOCKED: u32 = 68;

/// Nothing is in the handle.
pub const CLOSED: u32 = 69;

/// Something is in the handle already.
pub const BUSY: u32 = 70;

/// An argument is out of its range.
pub const MISUSE: u32 = 71;

/// The first of the numbers for mount rules.
pub const DAMAGE: u32 = 128;

/// The version of the header that this library serves.
pub const ABI: u32 = 1001;

/// The number of what a call answered.
pub fn code<T: Drop>(answer: Result<T, FsError>) -> u32
    ensures { result ≡ code_of answer }
{
    match answer {
        Ok(_) => 0,
        Err(FsError::Refused(refusal)) => refusal.number(),
        Err(FsError::Dead) => DEAD,
        Err(FsError::Fault) => FAULT,
    }
}

/// The number of why nothing was mounted. A mount rule has a number from 0 to 20.
pub fn why_number(why: Why) -> u32
    ensures { result ≡ why_code why }
{
    match why {
        Why::Damage(rule) => DAMAGE.saturating_add(rule),
        Why::Fault => FAULT,
        Why::Memory => NO_MEMORY,
    }
}

/// The version of the header that this library serves.
#[unsafe(no_mangle)]
pub extern "C" fn msa_abi() -> u32
    ensures { result ≡ ABI }
{
    ABI
}
