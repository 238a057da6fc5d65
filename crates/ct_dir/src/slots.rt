// The slots of a directory that are used, one after the other: one walk a page.
ghost use Rattle.std.specs.Prelude.{◌≡◌, ◌≢◌, ◌+◌, ◌*◌, ◌/◌, ◌%◌, ◌<◌, ◌≤◌, IfSome, IfNone};
ghost use Rattle.ct_base.specs.Slots.{IsSlot};
ghost use Rattle.ct_base.specs.Walk.{page_at, AreTables};
ghost use Rattle.ct_walk.specs.Pages.{some_page};
ghost use Rattle.ct_dir.specs.Directory.{AreEmpty, IsReadable, dir_of};
ghost use Rattle.ct_dir.specs.Reading.{Shows, Stands};

use crate::slot::Slot;
use ct_base::{ADDRESS_END, ENTRY_BYTES, Inode, PAGE_BYTES, Page, Vaddr};
use ct_pm::Pm;
use ct_walk::walk;

/// The page at an address, `None` where there is none.
pub fn page_of<D: Pm>(dev: &D, address: u64) -> Option<Page>
    requires tables { AreTables (D.words dev.now) }
    requires high { address < ADDRESS_END }
    ensures page { result ≡ some_page (page_at (D.words dev.now) 4 (address / PAGE_BYTES)) }
{
    walk(dev, Vaddr::new(address)?)
}

/// A walk over the slots of a directory that are used, by rising offset.
#[derive(Drop)]
pub struct Slots {
    dir: Inode,

    // The offset at which the next slot is sought.
    at: u64,

    // The page there, once the first slot of the page was passed.
    page: Option<Page>,
}

impl Slots {
    /// A walk that begins at the first slot.
    pub fn of(dir: Inode) -> Slots
        ensures dir { result.dir ≡ dir }
        ensures at { result.at ≡ 0 }
    {
        Slots {
            dir,
            at: 0,
            page: None,
        }
    }

    /// The page of the slot at which the walk stands.
    fn page_here<D: Pm>(&self, dev: &D) -> Option<Page>
        requires readable { IsReadable (D.words dev.now) self.now.dir }
        requires stands { Stands (D.words dev.now) self.now }
        requires below { self.now.at < self.now.dir.size }
        ensures { result ≡ some_page (page_at (D.words dev.now) 4 ((self.now.dir.base + self.now.at) / PAGE_BYTES)) }
    {
        if self.at % PAGE_BYTES != 0 {
            return self.page;
        }
        page_of(dev, self.dir.base + self.at)
    }

    /// The next slot that is used, `None` where there is none. The slots of an absent page are all empty.
    pub fn next<D: Pm>(&mut self, dev: &D) -> Option<Slot>
        requires readable { IsReadable (D.words dev.now) self.old.dir }
        requires stands { Stands (D.words dev.now) self.old }

        ensures stands { Stands (D.words dev.now) self.new }
        ensures dir { self.new.dir ≡ self.old.dir }

        ensures used { IfSome result (λ slot. IsSlot (dir_of (D.words dev.now) self.old.dir) slot.offset) }
        ensures shows { IfSome result (λ slot. Shows (D.words dev.now) (dir_of (D.words dev.now) self.old.dir) slot) }
        ensures on { IfSome result (λ slot. (self.old.at ≤ slot.offset) × (self.new.at ≡ slot.offset + ENTRY_BYTES)) }
        ensures passed { IfSome result (λ slot. AreEmpty (dir_of (D.words dev.now) self.old.dir) self.old.at slot.offset) }
        ensures end { IfNone result (AreEmpty (dir_of (D.words dev.now) self.old.dir) self.old.at self.old.dir.size) }
    {
        while self.at < self.dir.size {
            self.page = self.page_here(dev);
            match self.page {
                None => self.at += PAGE_BYTES - self.at % PAGE_BYTES,
                Some(page) => {
                    let slot = Slot::read(dev, page, self.at);
                    self.at += ENTRY_BYTES;
                    if slot.head != 0 {
                        return Some(slot);
                    }
                }
            }
        }
        None
    }
}
