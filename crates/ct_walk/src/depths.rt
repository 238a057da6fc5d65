// All that wants miss at one depth is made together, depth after depth downwards: its pages are filled with zeros under one
// fence, and linked under the next. Which page belongs to which cell needs no note, since both passes go through the free
// pages and the cells in rising order. So the pages are not taken before both have ended.
ghost use Rattle.std.specs.Prelude.{◌≡◌, ◌≢◌, ℕ, ◌+◌, ◌-◌, ◌*◌, ◌/◌, ◌%◌, ◌^◌, ◌<◌, ◌≤◌, true, List, drop, length, OnOk};
ghost use Rattle.ct_base.specs.Causes.{HasCause};
ghost use Rattle.ct_base.specs.Walk.{AreTables};
ghost use Rattle.ct_base.specs.Wants.{missing, missing_at as missing_at_of};
ghost use Rattle.ct_frames.specs.Agrees.{Agrees};
ghost use Rattle.ct_pm.specs.Device.{LeavesOnly, MakesOnly, NothingPending, SameOff};
ghost use Rattle.ct_walk.specs.Growth.{Extends, IsDone, IsTaken};
ghost use Rattle.ct_walk.specs.Has.{HasAll};
ghost use Rattle.ct_walk.specs.Depths.{without_lowest, IsOnTaken, AreZeros, HaveTables};

use crate::absent::{entry_of_cell, missing_at, next_missing};
use crate::growing::zero_page;
use crate::wants::{Want, deepest};
use ct_base::{FIRST_PAGE, PAGE_BYTES};
use ct_frames::Frames;
use ct_pm::{Pm, PmFault};

// Fills the lowest free pages with zeros, so many of them, and waits until they last.
fn clear_lowest<D: Pm>(dev: &mut D, frames: &Frames, count: u64) -> Result<(), PmFault>
    requires tables { AreTables (D.words dev.old) }
    requires agrees { Agrees (D.words dev.old) frames.now }
    requires room { count ≤ length frames.now.free }
    ensures zeros { OnOk result (AreZeros (D.words dev.new) frames.now (without_lowest count frames.now)) }
    ensures low { (q : ℕ) → IsTaken frames.now (without_lowest count frames.now) q → FIRST_PAGE ≤ q }
    ensures same { SameOff (IsOnTaken frames.now (without_lowest count frames.now)) (D.words dev.new) (D.words dev.old) }
    ensures images { NothingPending (D.told dev.old) → LeavesOnly (D.told dev.old) (D.told dev.new)
        (λ image. SameOff (IsOnTaken frames.now (without_lowest count frames.now)) image (D.words dev.old)) }
    ensures settled { OnOk result (NothingPending (D.told dev.old) → NothingPending (D.told dev.new)) }
    ensures made { MakesOnly (λ at put. IsOnTaken frames.now (without_lowest count frames.now) at) (D.told dev.old) (D.told dev.new) }
    ensures cause { HasCause (D.faults dev.old) (D.faults dev.new) result }
{
    let mut from = 0;
    for _ in 0..count {
        let page = match frames.lowest_from(from) {
            Some(page) => page.number(),
            None => unreachable!(),
        };
        zero_page(dev, page)?;
        from = page + 1;
    }
    dev.fence()
}

// Links the lowest free pages, which hold zeros, to the cells that are missing at a depth, and waits until the entries last.
fn link_lowest<D: Pm>(
    dev: &mut D,
    frames: &Frames,
    wants: &[Want],
    depth: u32,
    count: u64,
) -> Result<(), PmFault>
    requires tables { AreTables (D.words dev.old) }
    requires agrees { Agrees (D.words dev.old) frames.now }
    requires below { 1 ≤ depth }
    requires deep { depth ≤ 4 }
    requires above { HaveTables (D.words dev.old) wants.now depth }
    requires count { count ≡ missing_at_of (D.words dev.old) wants.now depth }
    requires room { count ≤ length frames.now.free }
    requires zeros { AreZeros (D.words dev.old) frames.now (without_lowest count frames.now) }
    ensures there { OnOk result (missing_at_of (D.words dev.new) wants.now depth ≡ 0) }
    ensures extends { Extends wants.now (D.words dev.old) (D.words dev.new) (D.told dev.old) (D.told dev.new) frames.now (without_lowest count frames.now) }
    ensures done { OnOk result (IsDone wants.now (D.words dev.old) (D.words dev.new) (D.told dev.old) (D.told dev.new) frames.now (without_lowest count frames.now)) }
    ensures cause { HasCause (D.faults dev.old) (D.faults dev.new) result }
{
    let mut from = 0;
    let mut cell = 0;
    for _ in 0..count {
        let x = match next_missing(dev, wants, depth, cell) {
            Some(x) => x,
            None => unreachable!(),
        };
        let page = match frames.lowest_from(from) {
            Some(page) => page.number(),
            None => unreachable!(),
        };
        let word = entry_of_cell(dev, depth, x);
        dev.store(word, page * PAGE_BYTES + 1)?;
        dev.flush(word / 8)?;
        from = page + 1;
        cell = x + 1;
    }
    dev.fence()
}

// Makes so many pages as are missing at a depth, out of the lowest free ones, which are still to be taken.
fn make_lowest<D: Pm>(
    dev: &mut D,
    frames: &Frames,
    wants: &[Want],
    depth: u32,
    count: u64,
) -> Result<(), PmFault>
    requires tables { AreTables (D.words dev.old) }
    requires agrees { Agrees (D.words dev.old) frames.now }
    requires below { 1 ≤ depth }
    requires deep { depth ≤ 4 }
    requires above { HaveTables (D.words dev.old) wants.now depth }
    requires count { count ≡ missing_at_of (D.words dev.old) wants.now depth }
    requires room { count ≤ length frames.now.free }
    ensures there { OnOk result (missing_at_of (D.words dev.new) wants.now depth ≡ 0) }
    ensures extends { Extends wants.now (D.words dev.old) (D.words dev.new) (D.told dev.old) (D.told dev.new) frames.now (without_lowest count frames.now) }
    ensures done { OnOk result (IsDone wants.now (D.words dev.old) (D.words dev.new) (D.told dev.old) (D.told dev.new) frames.now (without_lowest count frames.now)) }
    ensures cause { HasCause (D.faults dev.old) (D.faults dev.new) result }
{
    clear_lowest(dev, frames, count)?;
    link_lowest(dev, frames, wants, depth, count)
}

// Takes the lowest free pages, so many of them.
fn take_lowest(frames: &mut Frames, count: u64)
    ensures { frames.new ≡ without_lowest count frames.old }
{
    for _ in 0..count {
        let _page = frames.take();
    }
}

// Makes what the wants miss at a depth, where their tables are there.
fn ensure_depth<D: Pm>(
    dev: &mut D,
    frames: &mut Frames,
    wants: &[Want],
    depth: u32,
) -> Result<(), PmFault>
    requires tables { AreTables (D.words dev.old) }
    requires agrees { Agrees (D.words dev.old) frames.old }
    requires below { 1 ≤ depth }
    requires deep { depth ≤ 4 }
    requires above { HaveTables (D.words dev.old) wants.now depth }
    requires room { missing_at_of (D.words dev.old) wants.now depth ≤ length frames.old.free }
    ensures there { OnOk result (missing_at_of (D.words dev.new) wants.now depth ≡ 0) }
    ensures extends { Extends wants.now (D.words dev.old) (D.words dev.new) (D.told dev.old) (D.told dev.new) frames.old frames.new }
    ensures done { OnOk result (IsDone wants.now (D.words dev.old) (D.words dev.new) (D.told dev.old) (D.told dev.new) frames.old frames.new) }
    ensures cause { HasCause (D.faults dev.old) (D.faults dev.new) result }
{
    let count = missing_at(dev, wants, depth);
    if count == 0 {
        return Ok(());
    }
    let made = make_lowest(dev, frames, wants, depth, count);
    // Where the device failed, some of them were stored to or are linked, so none of them is free any more.
    take_lowest(frames, count);
    made
}

/// Makes all that the wants ask for, where it is absent.
///
/// The pages come from `frames`, and there are exactly as many as are missing. A crash at any moment leaves well formed
/// tables, each page that was there at its place, and each byte as it was.
///
/// # Errors
///
/// `PmFault` where the device failed. Then some of the pages may be there.
pub fn ensure_all<D: Pm>(dev: &mut D, frames: &mut Frames, wants: &[Want]) -> Result<(), PmFault>
    requires tables { AreTables (D.words dev.old) }
    requires agrees { Agrees (D.words dev.old) frames.old }
    requires room { missing (D.words dev.old) wants.now ≤ length frames.old.free }
    ensures there { OnOk result (HasAll (D.words dev.new) wants.now) }
    ensures taken { OnOk result (length frames.new.free + missing (D.words dev.old) wants.now ≡ length frames.old.free) }
    ensures agrees { OnOk result (Agrees (D.words dev.new) frames.new) }
    ensures settled { OnOk result (NothingPending (D.told dev.old) → NothingPending (D.told dev.new)) }

    // The words as they read and each image of a crash have grown from the words at entry, whatever the result.
    ensures extends { Extends wants.now (D.words dev.old) (D.words dev.new) (D.told dev.old) (D.told dev.new) frames.old frames.new }

    ensures cause { HasCause (D.faults dev.old) (D.faults dev.new) result }
{
    let past = deepest(wants) + 1;
    for depth in 1..past {
        ensure_depth(dev, frames, wants, depth)?;
    }
    Ok(())
}
