ghost use Rattle.std.specs.Prelude.{◌≡◌, ◌≢◌, ℕ, ◌+◌, ◌-◌, ◌/◌, ◌%◌, ◌^◌, ◌<◌, ◌≤◌, [], ◌∷◌, ◌++◌, length, slice_index, slice_set, replicate, ◌⊎◌, bit_and, All, IfOk, IsBitSet, IsTrue, ◌↔◌, vec_capacity};
ghost use Rattle.pm_file.specs.Lines.{with_line, page_total, IsCleared, IsKept};

use crate::lines::{add_line, has_line};
use ct_base::{MOST_PAGES, NoMemory};
use std::alloc::Global;

/// The lines that were stored to since they were last written, and those of them that are marked: the next fence writes
/// these. The pages with a marked line stand in a list, so that a fence looks at no other page.
#[derive(Drop)]
pub struct Marks {
    pub stored: Vec<u64>,
    pub marked: Vec<u64>,
    pub pages: Vec<u64>,
    ghost stored_fit: { (page : ℕ) → slice_index stored.items page < 2 ^ 64 },
    ghost marked_fit: { (page : ℕ) → slice_index marked.items page < 2 ^ 64 },
    ghost same_size: { length stored.items ≡ length marked.items },
    ghost room: { length marked.items ≤ vec_capacity pages },
    ghost counted: { length pages.items ≡ page_total marked.items },
    ghost in_range: { All (λ page. page < length marked.items) pages.items },
    ghost listed: { (page : ℕ) → All (λ p. p ≢ page) pages.items → slice_index marked.items page ≡ 0 },
}

impl Marks {
    /// No line of so many pages.
    pub fn new(alloc: Global, pages: u64) -> Result<Marks, NoMemory>
        requires { pages ≤ MOST_PAGES }
        ensures stored { IfOk result (λ marks. marks.stored.items ≡ replicate pages 0) }
        ensures marked { IfOk result (λ marks. marks.marked.items ≡ replicate pages 0) }
        ensures none { IfOk result (λ marks. marks.pages.items ≡ []) }
        ensures size { IfOk result (λ marks. length marks.marked.items ≡ pages) }
    {
        let Ok(stored) = vec![in alloc; 0u64; pages as usize] else {
            return Err(NoMemory);
        };
        let Ok(marked) = vec![in alloc; 0u64; pages as usize] else {
            return Err(NoMemory);
        };
        let Ok(pages) = Vec::with_capacity(alloc, pages as usize) else {
            return Err(NoMemory);
        };
        Ok(Marks {
            stored,
            marked,
            pages,
        })
    }

    /// Whether no line is marked.
    pub fn is_empty(&self) -> bool
        ensures { IsTrue result ↔ ((page : ℕ) → slice_index self.now.marked.items page ≡ 0) }
    {
        self.pages.as_slice().is_empty()
    }

    /// The line was stored to.
    pub fn store(&mut self, line: u64)
        requires { line / 64 < length self.old.stored.items }
        ensures stored { self.new.stored.items ≡ with_line self.old.stored.items line }
        ensures marked { self.new.marked.items ≡ self.old.marked.items }
        ensures pages { self.new.pages.items ≡ self.old.pages.items }
    {
        add_line(&mut self.stored, line);
    }

    /// Marks the line, if it was stored to.
    pub fn mark(&mut self, line: u64)
        requires { line / 64 < length self.old.stored.items }
        ensures stored { self.new.stored.items ≡ self.old.stored.items }
        ensures marked { IsBitSet (slice_index self.old.stored.items (line / 64)) (line % 64) → self.new.marked.items ≡ with_line self.old.marked.items line }
        ensures others { ¬ IsBitSet (slice_index self.old.stored.items (line / 64)) (line % 64) → self.new ≡ self.old }
    {
        if !has_line(&self.stored, line) {
            return;
        }
        let page = line / 64;
        if self.marked[page as usize] != 0 {
            add_line(&mut self.marked, line);
            return;
        }
        push_page(&mut self.pages, page);
        add_line(&mut self.marked, line);
    }

    /// Brings the pages with marks into their order.
    pub fn sort(&mut self)
        ensures stored { self.new.stored.items ≡ self.old.stored.items }
        ensures marked { self.new.marked.items ≡ self.old.marked.items }
        ensures len { length self.new.pages.items ≡ length self.old.pages.items }
    {
        self.pages.sort_unstable();
    }

    /// The marked lines were written: no line is marked, and these are stored to no more.
    pub fn clear(&mut self)
        ensures stored { (page : ℕ) → slice_index self.new.stored.items page ≡ bit_and (slice_index self.old.stored.items page) (2 ^ 64 - 1 - slice_index self.old.marked.items page) }
        ensures marked { (page : ℕ) → slice_index self.new.marked.items page ≡ 0 }
        ensures size { length self.new.marked.items ≡ length self.old.marked.items }
        ensures none { self.new.pages.items ≡ [] }
    {
        clear_pages(&self.pages, &mut self.stored, &mut self.marked);
        self.pages.clear();
    }
}

// Adds a page, for which there is room.
fn push_page(pages: &mut Vec<u64>, page: u64)
    requires { length pages.old.items < vec_capacity pages.old }
    ensures items { pages.new.items ≡ pages.old.items ++ page ∷ [] }
    ensures room { vec_capacity pages.old ≤ vec_capacity pages.new }
{
    match pages.push(page) {
        Ok(()) => {}
        Err(_) => unreachable!(),
    }
}

// Clears the marks of these pages.
fn clear_pages(pages: &[u64], stored: &mut Vec<u64>, marked: &mut Vec<u64>)
    requires same_size { length stored.old.items ≡ length marked.old.items }
    requires in_range { All (λ page. page < length marked.old.items) pages.now }
    ensures cleared { All (λ page. slice_index marked.new.items page ≡ 0) pages.now }
    ensures each { (page : ℕ) → IsCleared stored.old.items marked.old.items stored.new.items marked.new.items page ⊎ IsKept stored.old.items marked.old.items stored.new.items marked.new.items page }
    ensures stored_size { length stored.new.items ≡ length stored.old.items }
    ensures marked_size { length marked.new.items ≡ length marked.old.items }
{
    for page in pages {
        clear_page(stored, marked, *page as usize);
    }
}

fn clear_page(stored: &mut Vec<u64>, marked: &mut Vec<u64>, page: usize)
    requires stored { page < length stored.old.items }
    requires marked { page < length marked.old.items }
    ensures stored { stored.new.items ≡ slice_set stored.old.items page (bit_and (slice_index stored.old.items page) (2 ^ 64 - 1 - slice_index marked.old.items page)) }
    ensures marked { marked.new.items ≡ slice_set marked.old.items page 0 }
{
    stored[page] &= !marked[page];
    marked[page] = 0;
}
