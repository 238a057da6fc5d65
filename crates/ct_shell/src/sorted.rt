// The names in a directory whose slots are put in order.
ghost use Rattle.std.specs.Prelude.{◌≡◌, ◌≢◌, ◌≤◌, ℕ, Some, Err, MatchResult, length, map, take};
ghost use Rattle.std.specs.Io.KnownBytes.{Appends};
ghost use Rattle.ct_base.specs.Bytes.{PutAppends};
ghost use Rattle.ct_base.specs.Causes.{Rose};
ghost use Rattle.ct_base.specs.Slots.{IsSlot, slot_name};
ghost use Rattle.ct_call.specs.Mounted.{Volume};
ghost use Rattle.ct_dir.specs.Directory.{IsReadable, dir_of};
ghost use Rattle.ct_fs.specs.Mounts.{mounts};
ghost use Rattle.ct_look.specs.Looks.{AreSlots};
ghost use Rattle.ct_script.specs.Texts.{name_text, reply_line};
ghost use Rattle.ct_tree.specs.declared.call.Reply.TheVariants.{Names};

use crate::call::ServeEnd;
use ct_base::{Inode, Sink};
use ct_fs::{Fs, Listing};
use ct_pm::Pm;
use ct_script::{Quote, put_end, put_name, put_names};

// Writes the name in a slot.
fn put_slot<D: Pm, O: Sink>(
    fs: &Fs<D>,
    dir: Inode,
    offset: u64,
    quote: &mut Quote,
    out: &mut O,
) -> Result<(), ServeEnd>
    requires readable { (was : Volume D) → mounts fs.now ≡ Some was → IsReadable (D.words was.dev) dir }
    requires slot { (was : Volume D) → mounts fs.now ≡ Some was → IsSlot (dir_of (D.words was.dev) dir) offset }
    ensures name { (was : Volume D) → mounts fs.now ≡ Some was
        → MatchResult result (λ _. Appends (O.written out.old) (O.written out.new) (name_text (slot_name (dir_of (D.words was.dev) dir) offset)))
        (λ end. (end ≡ ServeEnd.Output) × ((k : ℕ) × Appends (O.written out.old) (O.written out.new) (take k (name_text (slot_name (dir_of (D.words was.dev) dir) offset))))) }
    ensures later { O.faults out.old ≤ O.faults out.new }
    ensures fault { result ≡ Err ServeEnd.Output → Rose (O.faults out.old) (O.faults out.new) }
{
    match fs.name_of(dir, offset) {
        Ok(name) => match put_name(out, quote, name.as_slice()) {
            Ok(()) => Ok(()),
            Err(_) => Err(ServeEnd::Output),
        },
        Err(_) => Err(ServeEnd::Device),
    }
}

/// Writes the line of the names in the slots of a directory, in the order of their offsets.
pub fn put_sorted<D: Pm, O: Sink>(
    fs: &Fs<D>,
    listing: Listing,
    offsets: &[u64],
    quote: &mut Quote,
    out: &mut O,
) -> Result<(), ServeEnd>
    requires slots { (was : Volume D) → mounts fs.now ≡ Some was → AreSlots (D.words was.dev) offsets.now listing }
    requires room { listing.count ≤ length offsets.now }
    ensures bytes { (was : Volume D) → mounts fs.now ≡ Some was
        → PutAppends (O.written out.old) (O.written out.new) result (reply_line (Names (map (slot_name (dir_of (D.words was.dev) listing.dir)) (take listing.count offsets.now))))
        × (result ≢ Err ServeEnd.Device) }
    ensures later { O.faults out.old ≤ O.faults out.new }
    ensures fault { result ≡ Err ServeEnd.Output → Rose (O.faults out.old) (O.faults out.new) }
{
    match put_names(out) {
        Ok(()) => {}
        Err(_) => return Err(ServeEnd::Output),
    }
    for k in 0..listing.count {
        match put_slot(fs, listing.dir, offsets[k], quote, out) {
            Ok(()) => {}
            Err(end) => return Err(end),
        }
    }
    match put_end(out) {
        Ok(()) => Ok(()),
        Err(_) => Err(ServeEnd::Output),
    }
}
