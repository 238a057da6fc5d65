ghost use Rattle.std.specs.Prelude.{◌≡◌, ◌⊎◌, ◌+◌, ℕ, OnOk, slice_index};
ghost use Rattle.ct_base.specs.Causes.{HasCause};
ghost use Rattle.ct_base.specs.Settled.{HasFewPairs, HasPages, IsShut, IsRecord, open_pairs, settled};
ghost use Rattle.ct_pm.specs.Device.{LeavesOnly, MakesOnly, NothingPending, SameOff, IsIn};
ghost use Rattle.ct_record.specs.Record.{InRecord, IsStaging, OpensOnly, SettlesTo};
ghost use Rattle.ct_recover.specs.Settling.{Settling};
ghost use Rattle.ct_record.specs.Seen.{device_behind};

use ct_base::{LONG_GATE, ROOT_WORD, STAGING_SLOT, STAGING_SLOTS};
use ct_pm::{Pm, PmFault, lay};
use ct_record::{Broken, replay};

// The word of the first root slot for staging.
const STAGING_WORD: u64 = ROOT_WORD + STAGING_SLOT;

// How many they are.
const SLOTS: usize = STAGING_SLOTS as usize;

// Sets the root slots for staging to 0.
fn clear_staging<D: Pm>(dev: &mut D) -> Result<(), PmFault>
    requires settled { NothingPending (D.told dev.old) }
    requires pages { HasPages (D.words dev.old) }
    requires shut { IsShut (D.words dev.old) }

    ensures zero { OnOk result ((word : ℕ) → IsStaging word → slice_index (D.words dev.new) word ≡ 0) }
    ensures same { SameOff (IsIn (ROOT_WORD + STAGING_SLOT) STAGING_SLOTS) (D.words dev.new) (D.words dev.old) }
    ensures settled { OnOk result (NothingPending (D.told dev.new)) }
    ensures any_moment { LeavesOnly (D.told dev.old) (D.told dev.new) (SettlesTo (D.words dev.old)) }
    ensures each_shut { LeavesOnly (D.told dev.old) (D.told dev.new) IsShut }
    ensures made { MakesOnly (λ word value. IsStaging word × (value ≡ 0)) (D.told dev.old) (D.told dev.new) }
    ensures cause { HasCause (D.faults dev.old) (D.faults dev.new) result }
{
    lay(dev, STAGING_WORD, &[0; SLOTS])?;
    dev.fence()
}

/// Replays the open record, closes its gate, and sets the root slots for staging to 0.
///
/// # Errors
///
/// `Broken` where the device failed. What is left settles as before.
pub fn settle<D: Pm>(dev: D) -> Result<D, Broken<D>>
    requires settled { NothingPending (D.told dev) }
    requires pages { HasPages (D.words dev) }
    requires record { IsRecord (D.words dev) }

    // After Ok the words are the settled ones, pages 1 to 32 aside.
    ensures words { OnOk result (SameOff InRecord (D.words (device_behind result)) (settled (D.words dev))) }
    ensures shut { OnOk result (IsShut (D.words (device_behind result))) }
    ensures settled { OnOk result (NothingPending (D.told (device_behind result))) }

    // A crash at any moment leaves what settles as the words at entry do, and so do the words as they read.
    ensures any_moment { LeavesOnly (D.told dev) (D.told (device_behind result)) (SettlesTo (D.words dev)) }
    ensures reads { SettlesTo (D.words dev) (D.words (device_behind result)) }

    // The record is lawful in it, with no more pairs than the long gate counts at entry, and so it is in the words as they
    // read.
    ensures lawful { LeavesOnly (D.told dev) (D.told (device_behind result)) (HasFewPairs (slice_index (D.words dev) LONG_GATE)) }
    ensures reads_lawful { HasFewPairs (slice_index (D.words dev) LONG_GATE) (D.words (device_behind result)) }

    // No other pairs are ever open.
    ensures opens { LeavesOnly (D.told dev) (D.told (device_behind result)) (OpensOnly (open_pairs (D.words dev))) }
    ensures reads_opens { OpensOnly (open_pairs (D.words dev)) (D.words (device_behind result)) }

    ensures made { MakesOnly (Settling (D.words dev)) (D.told dev) (D.told (device_behind result)) }
    ensures cause { HasCause (D.faults dev) (D.faults (device_behind result)) result }
{
    let mut dev = match replay(dev) {
        Ok(idle) => idle.into_dev(),
        Err(broken) => return Err(broken),
    };
    match clear_staging(&mut dev) {
        Ok(()) => Ok(dev),
        Err(_) => Err(Broken { dev }),
    }
}
