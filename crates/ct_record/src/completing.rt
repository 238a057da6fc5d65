ghost use Rattle.std.specs.Prelude.{◌≡◌, ◌<◌, ◌⊎◌, OnOk};
ghost use Rattle.ct_base.specs.Causes.{HasCause};
ghost use Rattle.ct_base.specs.Settled.{HasFewPairs, IsShut, Gives, with_pairs};
ghost use Rattle.ct_pm.specs.Device.{LeavesOnly, MakesOnly, NothingPending, SameOff};
ghost use Rattle.ct_record.specs.Record.{InRecord, OpensOnly, SettlesToEither, StaysInLine};
ghost use Rattle.ct_record.specs.Seen.{count_of, pairs_of, words_under, told_under, faults_under, after_finish, IsShort};

use crate::{Broken, Draft, Idle};
use ct_pm::Pm;

/// Arms the draft, applies its pairs and closes the gate: all of them are done, or none.
///
/// # Errors
///
/// `Broken` where the device failed. Each image then settles to the words without the pairs, or to those with all.
pub fn complete<D: Pm>(draft: Draft<D>) -> Result<Idle<D>, Broken<D>>
    requires { 0 < count_of draft }

    // After Ok the pairs stand, in their order, and off pages 1 to 32 nothing else changed.
    ensures words { OnOk result (SameOff InRecord (D.words (after_finish result)) (with_pairs (pairs_of draft) (words_under draft))) }
    ensures shut { OnOk result (IsShut (D.words (after_finish result))) }
    ensures settled { OnOk result (NothingPending (D.told (after_finish result))) }

    // A crash at any moment leaves what settles to the words before or after, and so do the words as they read.
    ensures any_moment { LeavesOnly (told_under draft) (D.told (after_finish result)) (SettlesToEither (pairs_of draft) (words_under draft)) }
    ensures reads { SettlesToEither (pairs_of draft) (words_under draft) (D.words (after_finish result)) }

    // The record is lawful in it, with no more pairs than the draft has, and so it is in the words as they read.
    ensures lawful { LeavesOnly (told_under draft) (D.told (after_finish result)) (HasFewPairs (count_of draft)) }
    ensures reads_lawful { HasFewPairs (count_of draft) (D.words (after_finish result)) }

    // No other pairs are ever open.
    ensures opens { LeavesOnly (told_under draft) (D.told (after_finish result)) (OpensOnly (pairs_of draft)) }
    ensures reads_opens { OpensOnly (pairs_of draft) (D.words (after_finish result)) }

    // Off pages 1 to 32 each store gives a word the value that one of the pairs has for it.
    ensures made { MakesOnly (λ word value. InRecord word ⊎ Gives (pairs_of draft) word value) (told_under draft) (D.told (after_finish result)) }
    ensures cause { HasCause (faults_under draft) (D.faults (after_finish result)) result }

    // Where no fourth pair was begun, no word of pages 1 to 32 is stored but those of the short record.
    ensures in_line { IsShort draft → MakesOnly StaysInLine (told_under draft) (D.told (after_finish result)) }
{
    let armed = match draft.arm() {
        Ok(armed) => armed,
        Err(broken) => return Err(broken),
    };
    let applied = match armed.apply() {
        Ok(applied) => applied,
        Err(broken) => return Err(broken),
    };
    applied.finish()
}
