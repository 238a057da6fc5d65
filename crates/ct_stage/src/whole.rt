// A run of pages is staged, and waited for once.
ghost use Rattle.std.specs.Prelude.{◌≡◌, ℕ, ◌+◌, ◌*◌, ◌/◌, ◌<◌, ◌≤◌, List, length, Contains, Option, IfSome, OnOk};
ghost use Rattle.ct_base.specs.Causes.{HasCause};
ghost use Rattle.ct_base.specs.Spares.{SparesFiles};
ghost use Rattle.ct_base.specs.State.{SameState};
ghost use Rattle.ct_base.specs.View.{view};
ghost use Rattle.ct_base.specs.Walk.{AreTables, byte, word};
ghost use Rattle.ct_base.specs.Wants.{missing};
ghost use Rattle.ct_frames.specs.Agrees.{Agrees};
ghost use Rattle.ct_frames.specs.Free.{FreePages};
ghost use Rattle.ct_pm.specs.Images.{History, reads};
ghost use Rattle.ct_pm.specs.Device.{LeavesOnly, MakesOnly, NothingPending, SameOff, StoresOver};
ghost use Rattle.ct_stage.specs.Edited.{AreBytes, AreThere, edited, staged_words};
ghost use Rattle.ct_stage.specs.Staged.{Begun, Works, Makes, MayStage, Holds, SeesSame, IsLaid, IsResting, WaitsOnce, pages_from};

use crate::edit::{Edit, WORDS, turn_page};
use crate::page::stage_page;
use ct_base::{
    ADDRESS_END, FIRST_PAGE, PAGE_BYTES, PAGE_WORDS, PARTITION_SLOT, ROOT_WORD, SLOT_PAGES,
    STAGING_SLOT,
};
use ct_frames::Frames;
use ct_pm::{Pm, PmFault};

/// The line of root slot 2.
const ROOT_LINE: u64 = (ROOT_WORD + STAGING_SLOT) / 8;

/// Waits for all that was staged: the line of root slot 2 is flushed, and then there is the one fence.
///
/// # Errors
///
/// `PmFault` where the device failed. Then what was staged may be pending.
pub fn stage_end<D: Pm>(dev: &mut D) -> Result<(), PmFault>
    requires { FIRST_PAGE * PAGE_WORDS ≤ length (D.words dev.old) }
    ensures words { D.words dev.new ≡ D.words dev.old }
    ensures works { (start : List ℕ) → (was : Option History) → (first frames : FreePages) → Works (ROOT_WORD + STAGING_SLOT) start (D.words dev.old) was (D.told dev.old) first frames →
        Works (ROOT_WORD + STAGING_SLOT) start (D.words dev.new) was (D.told dev.new) first frames }

    // Of work that began with an empty slot, on a device where nothing was pending.
    ensures settled { OnOk result ((start : List ℕ) → (was : Option History) → (first frames : FreePages) → Begun start (D.words dev.old) was (D.told dev.old) first frames →
        IfSome was (λ h. start ≡ reads h) → NothingPending was → NothingPending (D.told dev.new)) }
    ensures once { OnOk result ((start : List ℕ) → (was : Option History) → (first frames : FreePages) → Begun start (D.words dev.old) was (D.told dev.old) first frames →
        WaitsOnce was (D.told dev.new)) }

    ensures cause { HasCause (D.faults dev.old) (D.faults dev.new) result }
{
    dev.flush(ROOT_LINE)?;
    dev.fence()?;
    Ok(())
}

// Makes the pages, and waits for none.
fn stage_pages<D: Pm>(
    dev: &mut D,
    frames: &mut Frames,
    first: u64,
    count: u64,
    side: u64,
    edit: &Edit,
) -> Result<(), PmFault>
    requires tables { AreTables (D.words dev.old) }
    requires agrees { Agrees (D.words dev.old) frames.old }
    requires empty { word (D.words dev.old) (ROOT_WORD + STAGING_SLOT) ≡ 0 }
    requires from { STAGING_SLOT * SLOT_PAGES ≤ first }
    requires to { first + count ≤ (STAGING_SLOT + 1) * SLOT_PAGES }
    requires some { 1 ≤ count }
    requires side_low { PARTITION_SLOT * SLOT_PAGES ≤ side }
    requires side_high { side + count ≤ ADDRESS_END / PAGE_BYTES }
    requires given { AreThere edit.now }
    requires room { missing (D.words dev.old) (pages_from first count) ≤ length frames.old.free }
    ensures works { Works (ROOT_WORD + STAGING_SLOT) (D.words dev.old) (D.words dev.new) (D.told dev.old) (D.told dev.new) frames.old frames.new }
    ensures holds { OnOk result ((j : ℕ) → j < count → Holds (D.words dev.new) (first + j) (staged_words (D.words dev.old) edit.now (side + j))) }
    ensures makes { OnOk result (Makes (pages_from first count) (D.words dev.old) (D.words dev.new) frames.old frames.new) }
    ensures taken { OnOk result (length frames.new.free + missing (D.words dev.old) (pages_from first count) ≡ length frames.old.free) }
    ensures begun { OnOk result (Begun (D.words dev.old) (D.words dev.new) (D.told dev.old) (D.told dev.new) frames.old frames.new) }
    ensures cause { HasCause (D.faults dev.old) (D.faults dev.new) result }
{
    let start = side * PAGE_BYTES;
    let mut words = [0; WORDS];
    for i in 0..count {
        turn_page(dev, edit, start, start + i * PAGE_BYTES, &mut words);
        stage_page(dev, frames, first + i, &words)?;
    }
    Ok(())
}

// Makes the pages, and waits for them.
fn stage_whole<D: Pm>(
    dev: &mut D,
    frames: &mut Frames,
    first: u64,
    count: u64,
    side: u64,
    edit: &Edit,
) -> Result<(), PmFault>
    requires tables { AreTables (D.words dev.old) }
    requires agrees { Agrees (D.words dev.old) frames.old }
    requires settled { NothingPending (D.told dev.old) }
    requires empty { word (D.words dev.old) (ROOT_WORD + STAGING_SLOT) ≡ 0 }
    requires from { STAGING_SLOT * SLOT_PAGES ≤ first }
    requires to { first + count ≤ (STAGING_SLOT + 1) * SLOT_PAGES }
    requires some { 1 ≤ count }
    requires side_low { PARTITION_SLOT * SLOT_PAGES ≤ side }
    requires side_high { side + count ≤ ADDRESS_END / PAGE_BYTES }
    requires given { AreThere edit.now }
    requires room { missing (D.words dev.old) (pages_from first count) ≤ length frames.old.free }
    ensures works { Works (ROOT_WORD + STAGING_SLOT) (D.words dev.old) (D.words dev.new) (D.told dev.old) (D.told dev.new) frames.old frames.new }
    ensures holds { OnOk result ((j : ℕ) → j < count → Holds (D.words dev.new) (first + j) (staged_words (D.words dev.old) edit.now (side + j))) }
    ensures makes { OnOk result (Makes (pages_from first count) (D.words dev.old) (D.words dev.new) frames.old frames.new) }
    ensures taken { OnOk result (length frames.new.free + missing (D.words dev.old) (pages_from first count) ≡ length frames.old.free) }
    ensures settled { OnOk result (NothingPending (D.told dev.new)) }
    ensures once { OnOk result (WaitsOnce (D.told dev.old) (D.told dev.new)) }
    ensures cause { HasCause (D.faults dev.old) (D.faults dev.new) result }
{
    stage_pages(dev, frames, first, count, side, edit)?;
    stage_end(dev)?;
    Ok(())
}

/// Makes the virtual pages from `first` on, `count` of them, in the empty root slot 2, and their tables. Each has the bytes
/// of the page at the same place from virtual page `side` on, once the edit is made.
///
/// Nothing is waited for but at the end, once. A crash at any moment leaves what settles to the words at entry.
///
/// # Errors
///
/// `PmFault` where the device failed. Then some of the pages may be there.
pub fn stage<D: Pm>(
    dev: &mut D,
    frames: &mut Frames,
    first: u64,
    count: u64,
    side: u64,
    edit: &Edit,
) -> Result<(), PmFault>
    requires tables { AreTables (D.words dev.old) }
    requires agrees { Agrees (D.words dev.old) frames.old }
    requires settled { NothingPending (D.told dev.old) }
    requires empty { word (D.words dev.old) (ROOT_WORD + STAGING_SLOT) ≡ 0 }
    requires from { STAGING_SLOT * SLOT_PAGES ≤ first }
    requires to { first + count ≤ (STAGING_SLOT + 1) * SLOT_PAGES }
    requires some { 1 ≤ count }
    requires side_low { PARTITION_SLOT * SLOT_PAGES ≤ side }
    requires side_high { side + count ≤ ADDRESS_END / PAGE_BYTES }
    requires given { AreThere edit.now }
    requires room { missing (D.words dev.old) (pages_from first count) ≤ length frames.old.free }

    // The pages and their tables are there, with their words; each other cell is as before; exactly the pages that were
    // missing were taken.
    ensures holds { OnOk result ((j : ℕ) → j < count → Holds (D.words dev.new) (first + j) (staged_words (D.words dev.old) edit.now (side + j))) }
    ensures bytes { OnOk result (AreBytes edit.now → (j o : ℕ) → j < count → o < PAGE_BYTES → byte (D.words dev.new) ((first + j) * PAGE_BYTES + o) ≡ edited (view (D.words dev.old)) edit.now ((side + j) * PAGE_BYTES + o)) }
    ensures makes { OnOk result (Makes (pages_from first count) (D.words dev.old) (D.words dev.new) frames.old frames.new) }
    ensures taken { OnOk result (length frames.new.free + missing (D.words dev.old) (pages_from first count) ≡ length frames.old.free) }
    ensures settled { OnOk result (NothingPending (D.told dev.new)) }
    ensures once { OnOk result (WaitsOnce (D.told dev.old) (D.told dev.new)) }

    // Whatever the result, stores go to pages taken and to root slot 2 alone, and so the words as they read and each image
    // of a crash are the words at entry off these.
    ensures stores { IsResting (D.words dev.old) → StoresOver SparesFiles (D.told dev.old) (D.told dev.new) }
    ensures made { MakesOnly (λ at put. MayStage frames.old frames.new at) (D.told dev.old) (D.told dev.new) }
    ensures same { SameOff (MayStage frames.old frames.new) (D.words dev.new) (D.words dev.old) }
    ensures images { LeavesOnly (D.told dev.old) (D.told dev.new) (λ image. SameOff (MayStage frames.old frames.new) image (D.words dev.old)) }

    // So what is seen in them is what was seen, and they settle to the same state.
    ensures seen { SeesSame (D.words dev.old) (D.words dev.new) }
    ensures seen_images { LeavesOnly (D.told dev.old) (D.told dev.new) (SeesSame (D.words dev.old)) }
    ensures laid { OnOk result (IsResting (D.words dev.old) → IsLaid (D.words dev.new)) }
    ensures state { IsResting (D.words dev.old) → SameState (D.words dev.old) (D.words dev.new) }
    ensures state_images { IsResting (D.words dev.old) → LeavesOnly (D.told dev.old) (D.told dev.new) (SameState (D.words dev.old)) }

    ensures left { (q : ℕ) → Contains frames.new.free q → Contains frames.old.free q }
    ensures cause { HasCause (D.faults dev.old) (D.faults dev.new) result }
{
    stage_whole(dev, frames, first, count, side, edit)
}
