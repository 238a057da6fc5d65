// Caches as who remembers: what is known is asked first.
ghost use Rattle.ct_cache.specs.Agrees.{Agrees};
ghost use Rattle.ct_cache.specs.Seen.{known_in};

use crate::caches::Caches;
use crate::memory::Memory;
use ct_base::{Inode, Page, Vaddr};
use ct_dir::{Finder, Found, find};
use ct_pm::Pm;

impl Finder for Caches {
    ghost agrees = { λ caches words. Agrees (known_in caches) words };

    fn find<D: Pm>(&self, dev: &D, number: u64, dir: Inode, name: &[u8]) -> Option<Found> {
        match self.look_name(number, name) {
            Some(found) => Some(found),
            None => find(dev, dir, name),
        }
    }
}

impl Memory for Caches {
    fn page_of(&self, v: Vaddr) -> Option<Page> {
        // Nothing is read: this tells that the address is below the end of all.
        let _ = v.get();
        self.look_page(v)
    }
}
