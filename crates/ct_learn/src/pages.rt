// The pages that a call has touched are learnt.
ghost use Rattle.std.specs.Prelude.{◌≢◌};
ghost use Rattle.ct_cache.specs.Agrees.{Agrees};
ghost use Rattle.ct_cache.specs.Seen.{known_in};
ghost use Rattle.ct_commit.specs.Rest.{IsAtRest};
ghost use Rattle.ct_learn.specs.Learning.{IsSo};

use crate::learnt::Learnt;
use crate::names::learn_names;
use crate::touched::Touched;
use ct_base::{PAGE_BYTES, Vaddr};
use ct_cache::Caches;
use ct_inode::get;
use ct_pm::Pm;

/// The pages that are learnt of one call at most.
const MOST_PAGES: u64 = 1_024;

// Learns the pages of some bytes from an address on, as far as they are to be learnt.
fn learn_pages<D: Pm>(caches: &mut Caches, dev: &D, from: u64, len: u64)
    requires known { Agrees (known_in caches.old) (D.words dev.now) }
    requires rest { IsAtRest (D.words dev.now) }
    ensures { Agrees (known_in caches.new) (D.words dev.now) }
{
    let first = from / PAGE_BYTES;
    let past = from.saturating_add(len).div_ceil(PAGE_BYTES);
    for page in first..past.min(first + MOST_PAGES) {
        match Vaddr::new(page.saturating_mul(PAGE_BYTES)) {
            Some(v) => caches.learn_page(dev, v),
            None => return,
        }
    }
}

impl Learnt {
    /// Learns the names of a file's path that are not known, and the pages that a call has touched, 1,024 of them at most.
    pub fn learn<D: Pm>(&mut self, dev: &D, path: &[u8], touched: Touched)
        requires known { IsSo self.old (D.words dev.now) }
        requires rest { IsAtRest (D.words dev.now) }
        ensures { IsSo self.new (D.words dev.now) }
    {
        match &mut self.caches {
            Some(caches) => learn_file(caches, dev, path, touched),
            None => {}
        }
    }
}

// Learns the names of a file's path, and the pages that were touched.
fn learn_file<D: Pm>(caches: &mut Caches, dev: &D, path: &[u8], touched: Touched)
    requires known { Agrees (known_in caches.old) (D.words dev.now) }
    requires rest { IsAtRest (D.words dev.now) }
    ensures { Agrees (known_in caches.new) (D.words dev.now) }
{
    match learn_names(caches, dev, path) {
        Some(number) => {
            let file = get(dev, number);
            let (off, len) = touched.range(file.size);
            learn_pages(caches, dev, file.base.saturating_add(off), len);
        }
        None => {}
    }
}
