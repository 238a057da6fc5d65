ghost use Rattle.std.specs.Prelude.{◌≡◌, ◌≢◌, ℕ, ◌+◌, ◌-◌, ◌*◌, ◌/◌, ◌%◌, ◌<◌, ◌≤◌, ◌↔◌, [], ◌∷◌, length, IsTrue, IsNone, IfSome, IfNone, IfOk, Contains};
ghost use Rattle.ct_base.specs.Free.{IsRising};
ghost use Rattle.ct_frames.specs.Free.{FreePages, inserted, without, rising, from_on};

use crate::bits::{clear_bit, has_bit, lowest_bit, next_bit, set_bit};
use ct_base::{FIRST_PAGE, MOST_PAGES, NoMemory, Page};
use std::alloc::Global;
use std::marker::Model;

/// The pages of a device that are free.
#[derive(Drop)]
pub struct Frames {
    words: Vec<u64>,
    pages: u64,
    first: usize,
    free: u64,
}

impl Model for Frames {
    ghost use Rattle.ct_base.specs.Free.{IsRising};
    ghost use Rattle.ct_frames.specs.Free.{FreePages, AreFrames, listed, is_set};

    ghost Value = { FreePages };

    ghost view = { λ a. record { pages = a.pages; free = listed (is_set a.words.items) a.pages 0 } };

    ghost invariant = { λ a. AreFrames a.words.items a.pages a.first a.free };
}

impl Frames {
    /// The pages that may be handed out, all free: those from `FIRST_PAGE` on.
    pub fn new(alloc: Global, pages: u64) -> Result<Frames, NoMemory>
        requires least { FIRST_PAGE ≤ pages }
        requires most { pages ≤ MOST_PAGES }
        ensures { IfOk result (λ f. f ≡ record { pages = pages; free = rising (pages - FIRST_PAGE) FIRST_PAGE }) }
    {
        let mut words = match vec![in alloc; 0u64; (pages as usize + 63) / 64] {
            Ok(words) => words,
            Err(_) => return Err(NoMemory),
        };
        for page in FIRST_PAGE..pages {
            set_bit(&mut words, page);
        }
        Ok(Frames {
            words,
            pages,
            first: 0,
            free: pages - FIRST_PAGE,
        })
    }

    /// Takes the lowest free page; `None` exactly where none is free.
    pub fn take(&mut self) -> Option<Page>
        ensures some { IfSome result (λ page. self.old.free ≡ page ∷ self.new.free) }
        ensures least { IfSome result (λ page. (q : ℕ) → Contains self.new.free q → page < q) }
        ensures none { IfNone result ((self.old.free ≡ []) × (self.new.free ≡ [])) }
        ensures pages { self.new.pages ≡ self.old.pages }
        ensures in_range { IfSome result (λ page. (FIRST_PAGE ≤ page) × (page < self.old.pages)) }
        ensures small { IfSome result (λ page. page < MOST_PAGES) }
    {
        let page = lowest_bit(&self.words, self.first)?;
        clear_bit(&mut self.words, page);
        self.first = (page / 64) as usize;
        self.free -= 1;
        Some(Page::new(page))
    }

    /// Gives a page back.
    pub fn give(&mut self, page: Page)
        requires low { FIRST_PAGE ≤ page }
        requires high { page < self.old.pages }
        requires used { ¬ Contains self.old.free page }
        ensures { self.new ≡ record self.old { free = inserted page self.old.free } }
    {
        let number = page.number();
        set_bit(&mut self.words, number);
        self.first = self.first.min((number / 64) as usize);
        self.free += 1;
    }

    /// Takes a page that is free.
    pub fn mark(&mut self, page: Page)
        requires { Contains self.old.free page }
        ensures { self.new ≡ record self.old { free = without page self.old.free } }
    {
        clear_bit(&mut self.words, page.number());
        self.free -= 1;
    }

    /// Whether a page is free.
    pub fn is_free(&self, page: Page) -> bool
        ensures { IsTrue result ↔ Contains self.now.free page }
    {
        let number = page.number();
        number < self.pages && has_bit(&self.words, number)
    }

    /// The lowest free page from a number on; `None` exactly where none is free there.
    pub fn lowest_from(&self, from: u64) -> Option<Page>
        ensures some { IfSome result (λ page. from_on from self.now.free ≡ page ∷ from_on (page + 1) self.now.free) }
        ensures none { IfNone result (from_on from self.now.free ≡ []) }
        ensures in_range { (q : ℕ) → Contains self.now.free q → (FIRST_PAGE ≤ q) × (q < self.now.pages) }
        ensures small { IfSome result (λ page. page < MOST_PAGES) }
    {
        let page = next_bit(&self.words, from)?;
        Some(Page::new(page))
    }

    /// How many pages are free.
    pub fn free(&self) -> u64
        ensures count { result ≡ length self.now.free }
        ensures rising { IsRising self.now.free }
        ensures in_range { (q : ℕ) → Contains self.now.free q → (FIRST_PAGE ≤ q) × (q < self.now.pages) }
    {
        self.free
    }
}
