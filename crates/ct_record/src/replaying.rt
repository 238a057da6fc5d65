ghost use Rattle.std.specs.Prelude.{◌≡◌, ◌≤◌, ◌⊎◌, ℕ, OnOk, OnErr, drop, slice_index};
ghost use Rattle.ct_base.specs.Causes.{HasCause};
ghost use Rattle.ct_base.specs.Settled.{HasFewPairs, HasPages, IsShut, IsRecord, settled, with_pairs, open_pairs};
ghost use Rattle.ct_pm.specs.Device.{LeavesOnly, MakesOnly, NothingPending, SameOff};
ghost use Rattle.ct_record.specs.Record.{InRecord, OpensOnly, SettlesTo, IsStaging};
ghost use Rattle.ct_base.specs.Settled.{Gives};
ghost use Rattle.ct_record.specs.Seen.{after_finish};

use crate::{Armed, Broken, Idle};
use ct_base::{LONG_GATE, ROOT_WORD, SHORT_GATE};
use ct_pm::Pm;

/// Applies the open record, where there is one, and closes its gate.
///
/// # Errors
///
/// `Broken` where the device failed. What is left settles as before.
pub fn replay<D: Pm>(dev: D) -> Result<Idle<D>, Broken<D>>
    requires settled { NothingPending (D.told dev) }
    requires pages { HasPages (D.words dev) }
    requires record { IsRecord (D.words dev) }

    ensures words { OnOk result (SameOff InRecord (D.words (after_finish result)) (with_pairs (open_pairs (D.words dev)) (D.words dev))) }
    ensures shut { OnOk result (IsShut (D.words (after_finish result))) }
    ensures settled { OnOk result (NothingPending (D.told (after_finish result))) }

    // From the root table on the words are what those at entry settle to, the root slots for staging aside.
    ensures as_settled { OnOk result ((word : ℕ) → ROOT_WORD ≤ word → (IsStaging word → ⊥) →
        slice_index (D.words (after_finish result)) word ≡ slice_index (settled (D.words dev)) word) }

    // A crash at any moment leaves what settles as the words at entry do, and so do the words as they read.
    ensures any_moment { LeavesOnly (D.told dev) (D.told (after_finish result)) (SettlesTo (D.words dev)) }
    ensures reads { SettlesTo (D.words dev) (D.words (after_finish result)) }

    // The record is lawful in it, with no more pairs than the long gate counts at entry, and so it is in the words as they
    // read.
    ensures lawful { LeavesOnly (D.told dev) (D.told (after_finish result)) (HasFewPairs (slice_index (D.words dev) LONG_GATE)) }
    ensures reads_lawful { HasFewPairs (slice_index (D.words dev) LONG_GATE) (D.words (after_finish result)) }

    // No other pairs are ever open.
    ensures opens { LeavesOnly (D.told dev) (D.told (after_finish result)) (OpensOnly (open_pairs (D.words dev))) }
    ensures reads_opens { OpensOnly (open_pairs (D.words dev)) (D.words (after_finish result)) }

    // Off pages 1 to 32 each store gives a word the value that one of the pairs has for it.
    ensures made { MakesOnly (λ word value. InRecord word ⊎ Gives (open_pairs (D.words dev)) word value) (D.told dev) (D.told (after_finish result)) }
    ensures part { OnErr result ((k : ℕ) × SameOff InRecord (D.words (after_finish result)) (with_pairs (drop k (open_pairs (D.words dev))) (D.words dev))) }
    ensures cause { HasCause (D.faults dev) (D.faults (after_finish result)) result }
{
    if dev.load(LONG_GATE) == 0 && dev.load(SHORT_GATE) == 0 {
        return Ok(Idle::of(dev));
    }
    match Armed::of(dev).apply() {
        Ok(applied) => applied.finish(),
        Err(broken) => Err(broken),
    }
}
