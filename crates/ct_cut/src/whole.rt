// A cut as a whole: tables, the page on the edge, one record, and the slot is emptied.
ghost use Rattle.std.specs.Prelude.{◌≡◌, ℕ, ◌+◌, ◌<◌, ◌≤◌, List, length, OnOk};
ghost use Rattle.ct_base.specs.Causes.{HasCause};
ghost use Rattle.ct_base.specs.Inode.{inode as inode_at};
ghost use Rattle.ct_base.specs.Rules.{Sound};
ghost use Rattle.ct_base.specs.View.{view};
ghost use Rattle.ct_base.specs.Wants.{missing};
ghost use Rattle.ct_base.specs.Plan.{cut_wants, give_up_wants};
ghost use Rattle.ct_cut.specs.Cut.{CanCut, IsCut, IsCutOrNot, IsEmptied, IsShorter, less_wants};
ghost use Rattle.ct_commit.specs.Closed.{IsStateOr};
ghost use Rattle.ct_frames.specs.Agrees.{Agrees};
ghost use Rattle.ct_grow.specs.Grown.{IsReady};
ghost use Rattle.ct_pm.specs.Device.{NothingPending};
ghost use Rattle.ct_pm.specs.Phase.{Phase};
ghost use Rattle.ct_record.specs.Seen.{device_behind};
ghost use Rattle.ct_tree.specs.Content.{resized};
ghost use Rattle.ct_tree.specs.Lands.{files};
ghost use Rattle.ct_tree.specs.Stands.{IsFile};

use crate::prepare::{prepare_range, prepare_whole};
use crate::record::empty_now;
use ct_base::{MOST_CALL_PAIRS, PAGE_BYTES, STAGING_SLOT};
use ct_frames::Frames;
use ct_inode::get;
use ct_pm::Pm;
use ct_record::Broken;
use ct_walk::unstage;
use ct_write::{page_of, staged_page, touched, write_now};

// Cuts a file to a length that is not 0.
fn cut_inside<D: Pm>(dev: D, frames: &mut Frames, inode: u64, len: u64) -> Result<D, Broken<D>>
    requires can { CanCut (D.words dev) inode len }
    requires some { 1 ≤ len }
    requires agrees { Agrees (D.words dev) frames.old }
    requires settled { NothingPending (D.told dev) }
    requires room { missing (D.words dev) (cut_wants (inode_at (view (D.words dev)) inode) len) ≤ length frames.old.free }
    ensures shorter { OnOk result (IsShorter (D.words dev) (D.words (device_behind result)) inode len) }
    ensures file { OnOk result ((was : List ℕ) → IsFile (files (D.words dev) inode) was → IsFile (files (D.words (device_behind result)) inode) (resized len was)) }
    ensures sound { OnOk result (Sound (D.words dev) → Sound (D.words (device_behind result))) }
    ensures ready { OnOk result (IsReady (D.words (device_behind result))) }
    ensures agrees { OnOk result (Agrees (D.words (device_behind result)) frames.new) }
    ensures settled { OnOk result (NothingPending (D.told (device_behind result))) }
    ensures phase { Phase (IsStateOr (D.words dev) (λ after. IsShorter (D.words dev) after inode len)) MOST_CALL_PAIRS (D.told dev) (D.told (device_behind result)) (D.words (device_behind result)) }
    ensures taken { OnOk result (length frames.old.free ≤ length frames.new.free + missing (D.words dev) (cut_wants (inode_at (view (D.words dev)) inode) len)) }
    ensures cause { HasCause (D.faults dev) (D.faults (device_behind result)) result }
{
    let mut dev = dev;
    let file = get(&dev, inode);
    let rest = PAGE_BYTES * 8u64.pow(file.level as u32) - len;
    let from = file.base + len;
    let a = page_of(from);
    let b = staged_page(from);
    let n = touched(len, rest);
    match prepare_range(&mut dev, frames, a, b, n, from, from + rest) {
        Ok(()) => {}
        Err(_) => return Err(Broken { dev }),
    }
    let mut dev = match write_now(dev, inode, a, b, n, file.size, len) {
        Ok(dev) => dev,
        Err(broken) => return Err(broken),
    };
    match unstage(&mut dev, frames, STAGING_SLOT) {
        Ok(()) => Ok(dev),
        Err(_) => Err(Broken { dev }),
    }
}

// Cuts a file to nothing.
fn cut_whole<D: Pm>(dev: D, frames: &mut Frames, inode: u64) -> Result<D, Broken<D>>
    requires can { CanCut (D.words dev) inode 0 }
    requires agrees { Agrees (D.words dev) frames.old }
    requires settled { NothingPending (D.told dev) }
    requires room { missing (D.words dev) (give_up_wants (inode_at (view (D.words dev)) inode)) ≤ length frames.old.free }
    ensures emptied { OnOk result (IsEmptied (D.words dev) (D.words (device_behind result)) inode) }
    ensures file { OnOk result ((was : List ℕ) → IsFile (files (D.words dev) inode) was → IsFile (files (D.words (device_behind result)) inode) (resized 0 was)) }
    ensures sound { OnOk result (Sound (D.words dev) → Sound (D.words (device_behind result))) }
    ensures ready { OnOk result (IsReady (D.words (device_behind result))) }
    ensures agrees { OnOk result (Agrees (D.words (device_behind result)) frames.new) }
    ensures settled { OnOk result (NothingPending (D.told (device_behind result))) }
    ensures phase { Phase (IsStateOr (D.words dev) (λ after. IsEmptied (D.words dev) after inode)) MOST_CALL_PAIRS (D.told dev) (D.told (device_behind result)) (D.words (device_behind result)) }
    ensures taken { OnOk result (length frames.old.free ≤ length frames.new.free + missing (D.words dev) (give_up_wants (inode_at (view (D.words dev)) inode))) }
    ensures cause { HasCause (D.faults dev) (D.faults (device_behind result)) result }
{
    let mut dev = dev;
    match prepare_whole(&mut dev, frames, inode) {
        Ok(()) => {}
        Err(_) => return Err(Broken { dev }),
    }
    let mut dev = match empty_now(dev, inode) {
        Ok(dev) => dev,
        Err(broken) => return Err(broken),
    };
    match unstage(&mut dev, frames, STAGING_SLOT) {
        Ok(()) => Ok(dev),
        Err(_) => Err(Broken { dev }),
    }
}

/// Cuts a live file to a length below its size. To a length that is not 0 the page on the edge is staged with zeros past
/// the length, where the length is no multiple of a page, and one record exchanges all from there to the partition's end with
/// the staging slot and sets the size. To 0 one record gives the whole partition up, with the size, the base and the level.
/// Then the staging slot is emptied.
///
/// # Errors
///
/// `Broken` where the device failed. The file is then to be found cut or as it was, once the device settles.
pub fn cut<D: Pm>(dev: D, frames: &mut Frames, inode: u64, len: u64) -> Result<D, Broken<D>>
    requires can { CanCut (D.words dev) inode len }
    requires agrees { Agrees (D.words dev) frames.old }
    requires settled { NothingPending (D.told dev) }
    requires room { missing (D.words dev) (less_wants (inode_at (view (D.words dev)) inode) len) ≤ length frames.old.free }

    // The file has the length, and in its partition zeros behind it, or no partition; no other byte that is looked at changed
    // but those of its inode and, where the partition goes, of the headers. What was required holds again.
    ensures cut { OnOk result (IsCut (D.words dev) (D.words (device_behind result)) inode len) }
    ensures file { OnOk result ((was : List ℕ) → IsFile (files (D.words dev) inode) was → IsFile (files (D.words (device_behind result)) inode) (resized len was)) }
    ensures sound { OnOk result (Sound (D.words dev) → Sound (D.words (device_behind result))) }
    ensures ready { OnOk result (IsReady (D.words (device_behind result))) }
    ensures agrees { OnOk result (Agrees (D.words (device_behind result)) frames.new) }
    ensures settled { OnOk result (NothingPending (D.told (device_behind result))) }

    // A crash at any moment leaves the state before the cut or after it, and so do the words as they read.
    ensures phase { Phase (IsCutOrNot (D.words dev) inode len) MOST_CALL_PAIRS (D.told dev) (D.told (device_behind result)) (D.words (device_behind result)) }

    // No more pages are taken than were missing.
    ensures taken { OnOk result (length frames.old.free ≤ length frames.new.free + missing (D.words dev) (less_wants (inode_at (view (D.words dev)) inode) len)) }
    ensures cause { HasCause (D.faults dev) (D.faults (device_behind result)) result }
{
    if len == 0 {
        cut_whole(dev, frames, inode)
    } else {
        cut_inside(dev, frames, inode, len)
    }
}
