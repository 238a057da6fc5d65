// A write as a whole: tables, staging, one record, and the slot is emptied.
ghost use Rattle.std.specs.Prelude.{◌≡◌, ℕ, ◌+◌, ◌<◌, ◌≤◌, List, length, slice_index, OnOk};
ghost use Rattle.ct_base.specs.Causes.{HasCause};
ghost use Rattle.ct_base.specs.Inode.{inode as inode_at, part};
ghost use Rattle.ct_base.specs.Plan.{write_wants};
ghost use Rattle.ct_base.specs.Rules.{Sound};
ghost use Rattle.ct_base.specs.View.{view};
ghost use Rattle.ct_base.specs.Wants.{missing};
ghost use Rattle.ct_frames.specs.Agrees.{Agrees};
ghost use Rattle.ct_grow.specs.Grown.{IsReady};
ghost use Rattle.ct_pm.specs.Device.{NothingPending};
ghost use Rattle.ct_pm.specs.Phase.{Phase};
ghost use Rattle.ct_record.specs.Seen.{device_behind};
ghost use Rattle.ct_stage.specs.Edited.{AreBytes, HasBytes, given_at};
ghost use Rattle.ct_tree.specs.Content.{written as written_bytes};
ghost use Rattle.ct_tree.specs.Lands.{files};
ghost use Rattle.ct_tree.specs.Stands.{IsFile};
ghost use Rattle.ct_write.specs.Written.{CanWrite, IsBeforeOrAfter, IsWritten, data_bytes, data_given, data_len, edit_of};

use crate::data::{Data, given_of, len_of};
use crate::prepare::prepare;
use crate::record::write_now;
use crate::spot::{page_of, staged_page, touched};
use ct_base::{MOST_CALL_PAIRS, STAGING_SLOT};
use ct_frames::Frames;
use ct_inode::get;
use ct_pm::Pm;
use ct_record::Broken;
use ct_stage::{Edit, Given};
use ct_walk::unstage;

// Writes `len` given bytes.
fn write_given<D: Pm>(
    dev: D,
    frames: &mut Frames,
    inode: u64,
    off: u64,
    len: u64,
    given: &Given<'_>,
) -> Result<D, Broken<D>>
    requires can { CanWrite (D.words dev) inode off len }
    requires given { HasBytes given.now len }
    requires bytes { AreBytes (edit_of (inode_at (view (D.words dev)) inode) off len given.now) }
    requires agrees { Agrees (D.words dev) frames.old }
    requires settled { NothingPending (D.told dev) }
    requires room { missing (D.words dev) (write_wants (inode_at (view (D.words dev)) inode) off len (part (inode_at (view (D.words dev)) inode))) ≤ length frames.old.free }
    ensures written { OnOk result (IsWritten (D.words dev) (D.words (device_behind result)) inode off len given.now) }
    ensures file { OnOk result ((was bytes : List ℕ) → IsFile (files (D.words dev) inode) was → length bytes ≡ len → ((k : ℕ) → k < len → given_at given.now k ≡ slice_index bytes k)
        → IsFile (files (D.words (device_behind result)) inode) (written_bytes was off bytes)) }
    ensures sound { OnOk result (Sound (D.words dev) → Sound (D.words (device_behind result))) }
    ensures ready { OnOk result (IsReady (D.words (device_behind result))) }
    ensures agrees { OnOk result (Agrees (D.words (device_behind result)) frames.new) }
    ensures settled { OnOk result (NothingPending (D.told (device_behind result))) }
    ensures phase { Phase (IsBeforeOrAfter (D.words dev) inode off len given.now) MOST_CALL_PAIRS (D.told dev) (D.told (device_behind result)) (D.words (device_behind result)) }
    ensures taken { OnOk result (length frames.old.free ≤ length frames.new.free + missing (D.words dev) (write_wants (inode_at (view (D.words dev)) inode) off len (part (inode_at (view (D.words dev)) inode)))) }
    ensures cause { HasCause (D.faults dev) (D.faults (device_behind result)) result }
{
    let mut dev = dev;
    let file = get(&dev, inode);
    let from = file.base + off;
    let a = page_of(from);
    let b = staged_page(from);
    let n = touched(off, len);
    let edit = Edit {
        from,
        to: from + len,
        given: *given,
    };
    match prepare(&mut dev, frames, a, b, n, &edit) {
        Ok(()) => {}
        Err(_) => return Err(Broken { dev }),
    }
    let size = file.size.max(off + len);
    let mut dev = match write_now(dev, inode, a, b, n, file.size, size) {
        Ok(dev) => dev,
        Err(broken) => return Err(broken),
    };
    match unstage(&mut dev, frames, STAGING_SLOT) {
        Ok(()) => Ok(dev),
        Err(_) => Err(Broken { dev }),
    }
}

/// Writes the bytes to a live file from an offset on, where its partition holds them: the touched pages are staged with
/// them, one record exchanges these with the file's and sets the size where the file gets longer, and the staging slot is
/// emptied.
///
/// # Errors
///
/// `Broken` where the device failed. The write is then to be found whole or not at all, once the device settles.
pub fn commit_write<D: Pm>(
    dev: D,
    frames: &mut Frames,
    inode: u64,
    off: u64,
    what: Data<'_>,
) -> Result<D, Broken<D>>
    requires can { CanWrite (D.words dev) inode off (data_len what) }
    requires agrees { Agrees (D.words dev) frames.old }
    requires settled { NothingPending (D.told dev) }
    requires room { missing (D.words dev) (write_wants (inode_at (view (D.words dev)) inode) off (data_len what) (part (inode_at (view (D.words dev)) inode))) ≤ length frames.old.free }

    // The file has the new bytes and, where they end past it, the new size; no other byte that is looked at changed. Off the
    // touched pages and off root slot 2 each walk is as before, and so is each byte of root slots 3 to 9. What was required
    // holds again.
    ensures written { OnOk result (IsWritten (D.words dev) (D.words (device_behind result)) inode off (data_len what.entry) (data_given what.entry)) }
    ensures file { OnOk result ((was : List ℕ) → IsFile (files (D.words dev) inode) was → IsFile (files (D.words (device_behind result)) inode) (written_bytes was off (data_bytes what.entry))) }
    ensures sound { OnOk result (Sound (D.words dev) → Sound (D.words (device_behind result))) }
    ensures ready { OnOk result (IsReady (D.words (device_behind result))) }
    ensures agrees { OnOk result (Agrees (D.words (device_behind result)) frames.new) }
    ensures settled { OnOk result (NothingPending (D.told (device_behind result))) }

    // A crash at any moment leaves the state before the write or after it, and so do the words as they read.
    ensures phase { Phase (IsBeforeOrAfter (D.words dev) inode off (data_len what.entry) (data_given what.entry)) MOST_CALL_PAIRS (D.told dev) (D.told (device_behind result)) (D.words (device_behind result)) }

    // No more pages are taken than were missing.
    ensures taken { OnOk result (length frames.old.free ≤ length frames.new.free + missing (D.words dev) (write_wants (inode_at (view (D.words dev)) inode) off (data_len what.entry) (part (inode_at (view (D.words dev)) inode)))) }
    ensures cause { HasCause (D.faults dev) (D.faults (device_behind result)) result }
{
    let len = len_of(what);
    let given = given_of(what);
    write_given(dev, frames, inode, off, len, &given)
}
