// The names that are known.
ghost use Rattle.std.specs.Prelude.{◌≡◌, ◌<◌, ◌≤◌, ℕ, List, None, length, slice_index_or};
ghost use Rattle.ct_base.specs.Inode.{IsLive, inode};
ghost use Rattle.ct_base.specs.Named.{Named};
ghost use Rattle.ct_base.specs.Objects.{objects};
ghost use Rattle.ct_base.specs.View.{inode_count, view};
ghost use Rattle.ct_dir.specs.Directory.{IsFirst, IsReadable};
ghost use Rattle.ct_dir.specs.declared.lookup.Found.{Found as Entry};
ghost use Rattle.ct_cache.specs.Agrees.{Agrees};
ghost use Rattle.ct_cache.specs.Cells.{is_picked, left_by, name_key, name_place, same_name};
ghost use Rattle.ct_cache.specs.Known.{Forgets, Learns, is_of};
ghost use Rattle.ct_cache.specs.Seen.{known_in};

use crate::caches::Caches;
use crate::cell::{NAME_CELLS, NameCell};
use crate::clearing::clear_all;
use ct_base::{MOST_INODES, NAME_BYTES, NameBuf};
use ct_dir::{Found, find};
use ct_inode::get;
use ct_pm::Pm;

// The place of the cell of a name in a directory.
fn place_of(number: u64, name: &[u8]) -> usize
    ensures is { result ≡ name_place (number, name.now) }
    ensures there { result < NAME_CELLS }
{
    let sum = name.iter().fold(number as usize, |sum, byte| {
        sum % NAME_CELLS * 31 + *byte as usize
    });
    sum % NAME_CELLS
}

// The cell of a name that was found.
fn cell_of(number: u64, name: &[u8], found: Found) -> NameCell
    requires { length name.now ≤ NAME_BYTES }
    ensures key { name_key result ≡ (number, name.now) }
    ensures found { result.found ≡ found }
{
    let mut held = NameBuf::new();
    match held.try_extend_from_slice(name) {
        Ok(()) => {}
        Err(_) => unreachable!(),
    }
    NameCell {
        directory: number,
        name: held,
        found,
    }
}

// Whether a cell is that of a name.
fn is_key(cell: &NameCell, number: u64, name: &[u8]) -> bool
    ensures { result ≡ same_name (name_key cell.now) (number, name.now) }
{
    cell.directory == number && cell.name.as_slice() == name
}

// Whether a cell is that of some name in a directory.
fn is_of(cell: &Option<NameCell>, number: u64) -> bool
    ensures { result ≡ is_picked name_key (is_of number) cell.now }
{
    match cell {
        Some(cell) => cell.directory == number,
        None => false,
    }
}

// Empties the cells of these.
fn clear_names(cells: &mut Vec<Option<NameCell>>, number: u64)
    ensures size { length cells.new.items ≡ length cells.old.items }
    ensures cells { (i : ℕ) → slice_index_or cells.new.items i None ≡ left_by name_key (is_of number) (slice_index_or cells.old.items i None) }
{
    for i in 0..cells.len() {
        if is_of(&cells[i], number) {
            cells[i] = None;
        }
    }
}

impl Caches {
    /// The entry that is known of a name in the directory of an inode; `None` exactly where none is known.
    pub fn look_name(&self, number: u64, name: &[u8]) -> Option<Found>
        ensures { result ≡ (known_in self.now).names (number, name.now) }
    {
        match &self.names[place_of(number, name)] {
            Some(cell) => {
                if is_key(cell, number, name) {
                    return Some(cell.found);
                }
                None
            }
            None => None,
        }
    }

    /// Learns the first entry with a name in the directory of an inode, where there is one: it is known then, and at most one other
    /// entry no longer is.
    pub fn learn_name<D: Pm>(&mut self, dev: &D, number: u64, name: &[u8])
        requires live { IsLive (view (D.words dev.now)) (inode_count (D.words dev.now)) number }
        requires few { inode_count (D.words dev.now) ≤ MOST_INODES }
        requires readable { IsReadable (D.words dev.now) (inode (view (D.words dev.now)) number) }
        requires short { length name.now ≤ NAME_BYTES }
        ensures absent { (Named (objects (view (D.words dev.now)) (inode_count (D.words dev.now)) number) name.now → ⊥) → known_in self.new ≡ known_in self.old }
        ensures learns { (found : Entry) → IsFirst (objects (view (D.words dev.now)) (inode_count (D.words dev.now)) number) name.now found
            → Learns (known_in self.old).names (known_in self.new).names (number, name.now) found }
        ensures pages { (known_in self.new).pages ≡ (known_in self.old).pages }
        ensures agrees { Agrees (known_in self.old) (D.words dev.now) → Agrees (known_in self.new) (D.words dev.now) }
    {
        let dir = get(dev, number);
        match find(dev, dir, name) {
            Some(found) => {
                self.names[place_of(number, name)] = Some(cell_of(number, name, found));
            }
            None => {}
        }
    }

    /// Forgets each name of the directory of an inode, and keeps all others.
    pub fn forget_names(&mut self, number: u64)
        ensures names { Forgets (is_of number) (known_in self.old).names (known_in self.new).names }
        ensures pages { (known_in self.new).pages ≡ (known_in self.old).pages }
        ensures agrees { (words : List ℕ) → Agrees (known_in self.old) words → Agrees (known_in self.new) words }
    {
        clear_names(&mut self.names, number);
    }

    /// Forgets every name.
    pub fn forget_every_name(&mut self)
        ensures names { (k : ℕ × List ℕ) → (known_in self.new).names k ≡ None }
        ensures pages { (known_in self.new).pages ≡ (known_in self.old).pages }
    {
        clear_all(&mut self.names);
    }
}
