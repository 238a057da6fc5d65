// A root slot is emptied, and the pages that it reached are free again.
ghost use Rattle.std.specs.Prelude.{◌≡◌, ◌≢◌, ℕ, ◌+◌, ◌-◌, ◌*◌, ◌/◌, ◌^◌, ◌<◌, ◌≤◌, ◌↔◌, ◌⊎◌, length, Contains, slice_index, slice_set, OnOk, OnErr};
ghost use Rattle.ct_base.specs.Causes.{HasCause};
ghost use Rattle.ct_base.specs.View.{view};
ghost use Rattle.ct_base.specs.Walk.{page_at, page_count, IsUnder, IsSubtree, AreTables};
ghost use Rattle.ct_frames.specs.Agrees.{Agrees};
ghost use Rattle.ct_frames.specs.Free.{inserted};
ghost use Rattle.ct_pm.specs.Device.{EachNow, LeavesOnly, MakesOnly, NothingPending};
ghost use Rattle.ct_walk.specs.Staging.{Unstaged};

use crate::growing::put_entry;
use ct_base::{
    FIRST_PAGE, PAGE_BYTES, PAGE_WORDS, Page, ROOT_WORD, STAGING_SLOT, STAGING_SLOTS, TABLE_ENTRIES,
};
use ct_frames::Frames;
use ct_pm::{Pm, PmFault};

// Gives one page back.
fn give_page(frames: &mut Frames, page: u64)
    requires low { FIRST_PAGE ≤ page }
    requires high { page < frames.old.pages }
    requires used { ¬ Contains frames.old.free page }
    ensures { frames.new ≡ record frames.old { free = inserted page frames.old.free } }
{
    frames.give(Page::new(page));
}

// Gives back a page and all that is reached from it by at most so many index steps.
fn give_below<D: Pm>(dev: &D, frames: &mut Frames, page: u64, levels: u32)
    requires subtree { IsSubtree (D.words dev.now) page levels }
    requires few { levels ≤ 3 }
    requires small { page < 2 ^ 52 }
    requires pages { frames.old.pages ≡ page_count (D.words dev.now) }
    requires used { (q : ℕ) → IsUnder (D.words dev.now) page levels q → ¬ Contains frames.old.free q }
    ensures pages { frames.new.pages ≡ frames.old.pages }
    ensures given { (q : ℕ) → Contains frames.new.free q ↔ (Contains frames.old.free q ⊎ IsUnder (D.words dev.now) page levels q) }
    ensures more { length frames.old.free ≤ length frames.new.free }
{
    if levels == 0 {
        give_page(frames, page);
        return;
    }
    for i in 0..TABLE_ENTRIES {
        let entry = dev.load(page * PAGE_WORDS + i);
        if entry != 0 {
            give_below(dev, frames, entry / PAGE_BYTES, levels - 1);
        }
    }
    give_page(frames, page);
}

/// Sets root slot `slot`, one of those for staging, to 0, and once that lasts gives the pages that it reached back to
/// `frames`.
///
/// A crash at any moment leaves the words as they were, with the slot set to 0 or without.
///
/// # Errors
///
/// `PmFault` where the device failed. Then no page is given back.
pub fn unstage<D: Pm>(dev: &mut D, frames: &mut Frames, slot: u64) -> Result<(), PmFault>
    requires tables { AreTables (D.words dev.old) }
    requires agrees { Agrees (D.words dev.old) frames.old }
    requires from { STAGING_SLOT ≤ slot }
    requires to { slot ≤ STAGING_SLOT + STAGING_SLOTS - 1 }

    ensures words { OnOk result (D.words dev.new ≡ slice_set (D.words dev.old) (ROOT_WORD + slot) 0) }
    ensures unstaged { OnOk result (Unstaged (D.words dev.old) (D.words dev.new) slot) }
    ensures agrees { OnOk result (Agrees (D.words dev.new) frames.new) }
    ensures given { OnOk result ((q : ℕ) → Contains frames.new.free q ↔ (Contains frames.old.free q ⊎ IsUnder (D.words dev.old) (page_at (D.words dev.old) 1 slot) 3 q)) }
    ensures more { length frames.old.free ≤ length frames.new.free }
    ensures slot { OnOk result (EachNow (D.told dev.new) (λ image. slice_index image (ROOT_WORD + slot) ≡ 0)) }
    ensures settled { OnOk result (NothingPending (D.told dev.old) → NothingPending (D.told dev.new)) }

    ensures either { (D.words dev.new ≡ D.words dev.old) ⊎ (D.words dev.new ≡ slice_set (D.words dev.old) (ROOT_WORD + slot) 0) }
    ensures images { NothingPending (D.told dev.old) → LeavesOnly (D.told dev.old) (D.told dev.new)
        (λ image. (image ≡ D.words dev.old) ⊎ (image ≡ slice_set (D.words dev.old) (ROOT_WORD + slot) 0)) }
    ensures made { MakesOnly (λ at put. (at ≡ ROOT_WORD + slot) × (put ≡ 0)) (D.told dev.old) (D.told dev.new) }
    ensures view { (v : ℕ) → view (D.words dev.new) v ≡ view (D.words dev.old) v }

    ensures frames_err { OnErr result (frames.new ≡ frames.old) }
    ensures cause { HasCause (D.faults dev.old) (D.faults dev.new) result }
{
    let entry = dev.load(ROOT_WORD + slot);
    put_entry(dev, ROOT_WORD + slot, 0)?;
    if entry != 0 {
        give_below(dev, frames, entry / PAGE_BYTES, 3);
    }
    Ok(())
}
