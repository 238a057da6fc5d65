// The next name of a directory in byte order.
ghost use Rattle.std.specs.Prelude.{◌≡◌, ◌+◌, ◌≤◌, ◌↔◌, ℕ, List, Option, IfSome, IfNone, IsTrue, length};
ghost use Rattle.ct_base.specs.Objects.{Object};
ghost use Rattle.ct_base.specs.Slots.{IsSlot, slot_inode, slot_name};
ghost use Rattle.ct_dir.specs.Directory.{IsLater, IsNext, IsReadable, dir_of, name_in};
ghost use Rattle.ct_dir.specs.Keys.{AreKeys};
ghost use Rattle.ct_dir.specs.Nearest.{AreBest, IsBefore};
ghost use Rattle.ct_dir.specs.Reading.{Holds};

use crate::Found;
use crate::names::Key;
use crate::slot::Slot;
use crate::slots::Slots;
use ct_base::{ENTRY_WORDS, Inode};
use ct_pm::Pm;
use std::cmp::Ordering;

/// The key of a name, where there is one.
fn key_of(name: Option<&[u8]>) -> Option<Key>
    ensures { AreKeys (name_in name.entry) result }
{
    Some(Key::of(name?))
}

/// Whether a slot's name comes later than a name, or there is none.
fn is_later<D: Pm>(dev: &D, slot: Slot, after: &Option<Key>) -> bool
    requires { slot.place + ENTRY_WORDS ≤ length (D.words dev.now) }
    ensures { (f : Object) → (x : Option (List ℕ)) → Holds (D.words dev.now) f slot → AreKeys x after.now
        → IsTrue result ↔ IsLater x (slot_name f slot.offset) }
{
    match after {
        Some(key) => slot.compare(dev, key) == Ordering::Greater,
        None => true,
    }
}

/// The best entry so far, with its name.
#[derive(Clone, Copy, Debug)]
struct Best {
    found: Found,
    key: Key,
}

/// Whether a slot's name comes before that of the best entry, or there is none.
fn is_nearer<D: Pm>(dev: &D, slot: Slot, best: &Option<Best>) -> bool
    requires { slot.place + ENTRY_WORDS ≤ length (D.words dev.now) }
    ensures { (f : Object) → (x : Option (List ℕ)) → Holds (D.words dev.now) f slot → AreBest x best.now
        → IsTrue result ↔ IsBefore x (slot_name f slot.offset) }
{
    match best {
        Some(best) => slot.compare(dev, &best.key) == Ordering::Less,
        None => true,
    }
}

/// The entry with the least name, in byte order, of those later than a name or of all; `None` where there is none.
///
/// It meets each slot once, and compares eight bytes at a time.
pub fn next_after<D: Pm>(dev: &D, dir: Inode, after: Option<&[u8]>) -> Option<Found>
    requires { IsReadable (D.words dev.now) dir }
    ensures next { IfSome result (λ found. IsNext (dir_of (D.words dev.now) dir) (name_in after.entry) found.offset) }
    ensures inode { IfSome result (λ found. slot_inode (dir_of (D.words dev.now) dir) found.offset ≡ found.inode) }
    ensures none { IfNone result ((o : ℕ) → IsSlot (dir_of (D.words dev.now) dir) o
        → IsLater (name_in after.entry) (slot_name (dir_of (D.words dev.now) dir) o) → ⊥) }
{
    let key = key_of(after);
    let mut best = None;
    let mut slots = Slots::of(dir);
    while let Some(slot) = slots.next(dev) {
        if !is_later(dev, slot, &key) {
            continue;
        }
        if !is_nearer(dev, slot, &best) {
            continue;
        }
        best = Some(Best {
            found: slot.found(),
            key: slot.key(dev),
        });
    }
    Some(best?.found)
}
