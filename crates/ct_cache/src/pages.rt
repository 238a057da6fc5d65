// The pages that are known.
ghost use Rattle.std.specs.Prelude.{◌≡◌, ◌≢◌, ◌/◌, ℕ, List, None, length, if◌then◌else◌, slice_index_or};
ghost use Rattle.ct_base.specs.Walk.{walk as page_of};
ghost use Rattle.ct_walk.specs.Pages.{AreEntries};
ghost use Rattle.ct_cache.specs.Agrees.{Agrees};
ghost use Rattle.ct_cache.specs.Cells.{is_picked, left_by, page_key};
ghost use Rattle.ct_cache.specs.Known.{Forgets, Learns, is_within};
ghost use Rattle.ct_cache.specs.Seen.{known_in};

use crate::caches::Caches;
use crate::cell::{PAGE_CELLS, PageCell};
use crate::clearing::clear_all;
use ct_base::{PAGE_BYTES, Page, Vaddr};
use ct_pm::Pm;
use ct_walk::walk;

// Whether a cell is that of one of `n` virtual pages from a first one on.
fn is_within(cell: &Option<PageCell>, first: u64, n: u64) -> bool
    ensures { result ≡ is_picked page_key (is_within first n) cell.now }
{
    match cell {
        Some(cell) => cell.number >= first && cell.number - first < n,
        None => false,
    }
}

// Empties the cells of these.
fn clear_pages(cells: &mut Vec<Option<PageCell>>, first: u64, n: u64)
    ensures size { length cells.new.items ≡ length cells.old.items }
    ensures cells { (i : ℕ) → slice_index_or cells.new.items i None ≡ left_by page_key (is_within first n) (slice_index_or cells.old.items i None) }
{
    for i in 0..cells.len() {
        if is_within(&cells[i], first, n) {
            cells[i] = None;
        }
    }
}

impl Caches {
    /// The page that is known of an address; `None` exactly where none is known.
    pub fn look_page(&self, v: Vaddr) -> Option<Page>
        ensures { result ≡ (known_in self.now).pages (v / PAGE_BYTES) }
    {
        let number = v.get() / PAGE_BYTES;
        match &self.pages[number as usize % PAGE_CELLS] {
            Some(cell) => {
                if cell.number == number {
                    return Some(cell.page);
                }
                None
            }
            None => None,
        }
    }

    /// Learns the page at an address, where there is one: it is known then, and at most one other page no longer is.
    pub fn learn_page<D: Pm>(&mut self, dev: &D, v: Vaddr)
        requires { AreEntries (D.words dev.now) }
        ensures absent { page_of (D.words dev.now) v ≡ 0 → known_in self.new ≡ known_in self.old }
        ensures learns { page_of (D.words dev.now) v ≢ 0
            → Learns (known_in self.old).pages (known_in self.new).pages (v / PAGE_BYTES) (page_of (D.words dev.now) v) }
        ensures names { (known_in self.new).names ≡ (known_in self.old).names }
        ensures agrees { Agrees (known_in self.old) (D.words dev.now) → Agrees (known_in self.new) (D.words dev.now) }
    {
        match walk(dev, v) {
            Some(page) => {
                let number = v.get() / PAGE_BYTES;
                self.pages[number as usize % PAGE_CELLS] = Some(PageCell { number, page });
            }
            None => {}
        }
    }

    /// Forgets the pages of `n` virtual pages from a first one on, and keeps all others.
    pub fn forget_pages(&mut self, first: u64, n: u64)
        ensures pages { Forgets (is_within first n) (known_in self.old).pages (known_in self.new).pages }
        ensures names { (known_in self.new).names ≡ (known_in self.old).names }
        ensures agrees { (words : List ℕ) → Agrees (known_in self.old) words → Agrees (known_in self.new) words }
    {
        clear_pages(&mut self.pages, first, n);
    }

    /// Forgets every page.
    pub fn forget_every_page(&mut self)
        ensures pages { (p : ℕ) → (known_in self.new).pages p ≡ None }
        ensures names { (known_in self.new).names ≡ (known_in self.old).names }
    {
        clear_all(&mut self.pages);
    }
}
