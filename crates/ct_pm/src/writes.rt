ghost use Rattle.std.specs.Prelude.{◌≡◌, ◌<◌, ◌≤◌, ◌+◌, ◌-◌, ◌*◌, ◌/◌, ◌⊎◌, [], ◌∷◌, ◌++◌, ℕ, OnOk, OnErr, length, slice_set};
ghost use Rattle.ct_base.specs.Causes.{HasCause};
ghost use Rattle.ct_pm.specs.Device.{with_steps, LeavesOnly, MakesOnly, NothingPending, QuietOff, WrittenBack, IsIn, Puts, MayPut, KeepsOthersBack, IsValueOf, stores_of, flushes_of, line_count};
ghost use Rattle.ct_pm.specs.declared.step.Step.TheVariants.{Store, Flush, Fence};

use crate::{Pm, PmFault};

/// Stores one word, flushes its line and fences: a crash at any moment leaves the word as before or as `value`, and all
/// other words as before.
///
/// # Errors
///
/// `PmFault` where the device failed. Then the word is as before or `value`, and may be pending.
pub fn commit<D: Pm>(dev: &mut D, word: u64, value: u64) -> Result<(), PmFault>
    requires within { word < length (D.words dev.old) }
    requires settled { NothingPending (D.told dev.old) }

    ensures words { OnOk result (D.words dev.new ≡ slice_set (D.words dev.old) word value) }
    ensures settled { OnOk result (NothingPending (D.told dev.new)) }
    ensures steps { OnOk result (D.told dev.new ≡ with_steps (Fence ∷ Flush (word / 8) ∷ Store word value ∷ []) (D.told dev.old)) }

    // A crash at any moment leaves the words at entry, with the one word set or without.
    ensures any_moment { LeavesOnly (D.told dev.old) (D.told dev.new)
        (λ image. (image ≡ D.words dev.old) ⊎ (image ≡ slice_set (D.words dev.old) word value)) }

    ensures made { MakesOnly (λ at put. (at ≡ word) × (put ≡ value)) (D.told dev.old) (D.told dev.new) }
    ensures size { length (D.words dev.new) ≡ length (D.words dev.old) }

    ensures err { OnErr result ((D.words dev.new ≡ D.words dev.old) ⊎ (D.words dev.new ≡ slice_set (D.words dev.old) word value)) }
    ensures cause { HasCause (D.faults dev.old) (D.faults dev.new) result }
{
    dev.store(word, value)?;
    dev.flush(word / 8)?;
    dev.fence()
}

// Stores the values at the words from `first` on.
fn store_all<D: Pm>(dev: &mut D, first: u64, values: &[u64]) -> Result<(), PmFault>
    requires { first + length values.now ≤ length (D.words dev.old) }
    ensures words { OnOk result (Puts first values.now (D.words dev.old) (D.words dev.new)) }
    ensures quiet { QuietOff (IsIn first (length values.now)) (D.told dev.old) (D.told dev.new) }
    ensures others { KeepsOthersBack (IsIn first (length values.now)) (D.told dev.old) (D.told dev.new) }
    ensures steps { OnOk result (D.told dev.new ≡ with_steps (stores_of first values.now (length values.now)) (D.told dev.old)) }
    ensures made { MakesOnly (IsValueOf first values.now) (D.told dev.old) (D.told dev.new) }
    ensures size { length (D.words dev.new) ≡ length (D.words dev.old) }
    ensures err { OnErr result (MayPut first values.now (D.words dev.old) (D.words dev.new)) }
    ensures cause { HasCause (D.faults dev.old) (D.faults dev.new) result }
{
    for (i, value) in values.iter().enumerate() {
        dev.store(first + i as u64, *value)?;
    }
    Ok(())
}

/// Flushes the lines from `from` to the one before `to`.
///
/// # Errors
///
/// `PmFault` where the device failed.
pub fn flush_lines<D: Pm>(dev: &mut D, from: u64, to: u64) -> Result<(), PmFault>
    requires { 8 * to < length (D.words dev.old) + 8 }
    ensures words { D.words dev.new ≡ D.words dev.old }
    ensures quiet { QuietOff (λ _. ⊥) (D.told dev.old) (D.told dev.new) }
    ensures steps { OnOk result (D.told dev.new ≡ with_steps (flushes_of from (to - from)) (D.told dev.old)) }
    ensures made { MakesOnly (λ at put. ⊥) (D.told dev.old) (D.told dev.new) }
    ensures back { OnOk result ((line : ℕ) → from ≤ line → line < to → WrittenBack (D.told dev.new) line) }
    ensures others { (line : ℕ) → WrittenBack (D.told dev.old) line → WrittenBack (D.told dev.new) line }
    ensures cause { HasCause (D.faults dev.old) (D.faults dev.new) result }
{
    for line in from..to {
        dev.flush(line)?;
    }
    Ok(())
}

/// Stores the values at the words from `first` on in their order, and then flushes their lines in theirs. A fence has to
/// follow before they are sure to last.
///
/// # Errors
///
/// `PmFault` where the device failed. Then each of these words is as before or its value.
pub fn lay<D: Pm>(dev: &mut D, first: u64, values: &[u64]) -> Result<(), PmFault>
    requires { first + length values.now ≤ length (D.words dev.old) }

    ensures words { OnOk result (Puts first values.now (D.words dev.old) (D.words dev.new)) }
    ensures back { OnOk result ((word : ℕ) → IsIn first (length values.now) word → WrittenBack (D.told dev.new) (word / 8)) }
    ensures still_back { OnOk result ((line : ℕ) → WrittenBack (D.told dev.old) line → WrittenBack (D.told dev.new) line) }
    ensures steps { OnOk result (D.told dev.new ≡
        with_steps (flushes_of (first / 8) (line_count first (length values.now)) ++ stores_of first values.now (length values.now)) (D.told dev.old)) }

    // A crash at any moment leaves the other words as one at entry would.
    ensures quiet { QuietOff (IsIn first (length values.now)) (D.told dev.old) (D.told dev.new) }

    ensures others { KeepsOthersBack (IsIn first (length values.now)) (D.told dev.old) (D.told dev.new) }
    ensures made { MakesOnly (IsValueOf first values.now) (D.told dev.old) (D.told dev.new) }
    ensures size { length (D.words dev.new) ≡ length (D.words dev.old) }

    ensures err { OnErr result (MayPut first values.now (D.words dev.old) (D.words dev.new)) }
    ensures cause { HasCause (D.faults dev.old) (D.faults dev.new) result }
{
    store_all(dev, first, values)?;
    if values.is_empty() {
        return Ok(());
    }
    let last = first + (values.len() as u64 - 1);
    flush_lines(dev, first / 8, last / 8 + 1)
}
