// What was learnt is asked first.
ghost use Rattle.ct_learn.specs.Learning.{IsSo};

use crate::learnt::Learnt;
use ct_base::{Inode, Page, Vaddr};
use ct_cache::Memory;
use ct_dir::{Finder, Found, find};
use ct_pm::Pm;

impl Finder for Learnt {
    ghost agrees = { IsSo };

    fn find<D: Pm>(&self, dev: &D, number: u64, dir: Inode, name: &[u8]) -> Option<Found> {
        match &self.caches {
            Some(caches) => caches.find(dev, number, dir, name),
            None => find(dev, dir, name),
        }
    }
}

impl Memory for Learnt {
    fn page_of(&self, v: Vaddr) -> Option<Page> {
        match &self.caches {
            Some(caches) => caches.page_of(v),
            None => None,
        }
    }
}
