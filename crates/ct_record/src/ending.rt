ghost use Rattle.std.specs.Prelude.{◌≡◌, ◌<◌, ◌≤◌, ℕ, List, OnErr, OnOk};
ghost use Rattle.std.specs.declared.option.Option.{Option};
ghost use Rattle.ct_base.specs.Causes.{HasCause};
ghost use Rattle.ct_base.specs.Settled.{Pair, with_pairs};
ghost use Rattle.ct_pm.specs.Device.{MakesOnly, SameOff};
ghost use Rattle.ct_pm.specs.Images.{History};
ghost use Rattle.ct_record.specs.Record.{Concluded, InRecord, IsDrafted, StaysInLine};
ghost use Rattle.ct_record.specs.Seen.{IsShort, count_of, device_behind, faults_under, pairs_of, told_under, words_under};

use crate::{Broken, Draft, complete};
use ct_pm::{Pm, PmFault};

/// Ends a record: where its pairs were drafted it is completed, and where the device failed in between it is dropped.
///
/// # Errors
///
/// `Broken` where the device failed, now or while the pairs were drafted.
pub fn conclude<D: Pm>(draft: Draft<D>, drafted: Result<(), PmFault>) -> Result<D, Broken<D>>
    requires { OnOk drafted (0 < count_of draft) }

    // After Ok the pairs had been drafted, and stand.
    ensures done { OnOk result (OnErr drafted ⊥) }
    ensures words { OnOk result (SameOff InRecord (D.words (device_behind result)) (with_pairs (pairs_of draft) (words_under draft))) }
    ensures concluded { (was : List ℕ) (start : Option History) (pairs : List Pair) (most : ℕ) → IsDrafted was (words_under draft) start (told_under draft)
        → OnOk drafted ((pairs_of draft ≡ pairs) × (count_of draft ≤ most))
        → Concluded was start pairs most (D.words (device_behind result)) (D.told (device_behind result)) result }
    ensures cause { (before : ℕ) → HasCause before (faults_under draft) drafted → HasCause before (D.faults (device_behind result)) result }

    // Where no fourth pair was begun, no word of pages 1 to 32 is stored but those of the short record.
    ensures in_line { IsShort draft → MakesOnly StaysInLine (told_under draft) (D.told (device_behind result)) }
{
    match drafted {
        Ok(()) => {}
        Err(_) => {
            return Err(Broken {
                dev: draft.abandon(),
            });
        }
    }
    match complete(draft) {
        Ok(idle) => Ok(idle.into_dev()),
        Err(broken) => Err(broken),
    }
}
