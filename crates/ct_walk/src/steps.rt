// Index steps from the root to the page of an address.
ghost use Rattle.std.specs.Prelude.{◌≡◌, ◌≢◌, ℕ, ◌+◌, ◌-◌, ◌*◌, ◌/◌, ◌%◌, ◌^◌, ◌<◌, ◌≤◌, length, IfSome, Some, None};
ghost use Rattle.ct_base.specs.Walk.{word_in, next, walk as page_of, byte, AreTables};
ghost use Rattle.ct_walk.specs.Pages.{some_page, on_way, AreEntries, IsTable, IsSomeTable};

use ct_base::{PAGE_BYTES, PAGE_WORDS, Page, ROOT_PAGE, SLOT_SPAN, TABLE_ENTRIES, Vaddr};
use ct_pm::Pm;
use std::marker::Model;

/// The addresses that a table of level 1 leads to, in bytes.
const FIRST_SPAN: u64 = PAGE_BYTES * TABLE_ENTRIES;

/// The addresses that a table of level 2 leads to, in bytes.
const SECOND_SPAN: u64 = FIRST_SPAN * TABLE_ENTRIES;

/// A page that is known to be a table of level `K`: the root is of level 4, and entries of level 1 name pages of data.
#[derive(Clone, Copy, Debug, Drop)]
pub struct Table<const K: u32> {
    page: u64,
}

impl<const K: u32> Model for Table<K> {
    ghost use Rattle.std.specs.Prelude.{ℕ, ◌<◌, ◌^◌};

    ghost Value = { ℕ };

    ghost view = { λ t. t.page };

    ghost invariant = { λ t. t.page < 2 ^ 52 };

    ghost inverse = { λ n. record { page = n } };
}

/// The page that entry `i` of a table names; `None` exactly where the entry is 0.
pub fn entry_of<D: Pm>(dev: &D, page: u64, i: u64) -> Option<u64>
    requires entries { AreEntries (D.words dev.now) }
    requires table { IsSomeTable (D.words dev.now) page }
    requires small { page < 2 ^ 52 }
    requires index { i < TABLE_ENTRIES }
    ensures exact { result ≡ some_page (next (D.words dev.now) page i) }
    ensures small { IfSome result (λ p. p < 2 ^ 52) }
{
    let entry = dev.load(page * PAGE_WORDS + i);
    if entry == 0 {
        None
    } else {
        Some(entry / PAGE_BYTES)
    }
}

/// The root table.
pub fn root() -> Table<4>
    ensures { result ≡ ROOT_PAGE }
{
    Table { page: ROOT_PAGE }
}

impl Table<4> {
    /// The table that entry `i` names; `None` exactly where the entry is 0.
    #[tactic(auto, using(crate::proofs::Entries::child_table))]
    pub fn child<D: Pm>(self, dev: &D, i: u64) -> Option<Table<3>>
        requires entries { AreEntries (D.words dev.now) }
        requires table { IsTable (D.words dev.now) 0 self }
        requires index { i < TABLE_ENTRIES }
        ensures exact { result ≡ some_page (next (D.words dev.now) self i) }
        ensures table { IfSome result (λ t. IsTable (D.words dev.now) 1 t) }
    {
        let page = entry_of(dev, self.page, i)?;
        Some(Table { page })
    }
}

impl Table<3> {
    /// The table that entry `i` names; `None` exactly where the entry is 0.
    #[tactic(auto, using(crate::proofs::Entries::child_table))]
    pub fn child<D: Pm>(self, dev: &D, i: u64) -> Option<Table<2>>
        requires entries { AreEntries (D.words dev.now) }
        requires table { IsTable (D.words dev.now) 1 self }
        requires index { i < TABLE_ENTRIES }
        ensures exact { result ≡ some_page (next (D.words dev.now) self i) }
        ensures table { IfSome result (λ t. IsTable (D.words dev.now) 2 t) }
    {
        let page = entry_of(dev, self.page, i)?;
        Some(Table { page })
    }
}

impl Table<2> {
    /// The table that entry `i` names; `None` exactly where the entry is 0.
    pub fn child<D: Pm>(self, dev: &D, i: u64) -> Option<Table<1>>
        requires entries { AreEntries (D.words dev.now) }
        requires table { IsTable (D.words dev.now) 2 self }
        requires index { i < TABLE_ENTRIES }
        ensures exact { result ≡ some_page (next (D.words dev.now) self i) }
        ensures table { IfSome result (λ t. IsTable (D.words dev.now) 3 t) }
    {
        let page = entry_of(dev, self.page, i)?;
        Some(Table { page })
    }
}

impl Table<1> {
    /// The page that entry `i` names; `None` exactly where the entry is 0.
    pub fn page<D: Pm>(self, dev: &D, i: u64) -> Option<Page>
        requires entries { AreEntries (D.words dev.now) }
        requires table { IsTable (D.words dev.now) 3 self }
        requires index { i < TABLE_ENTRIES }
        ensures exact { result ≡ some_page (next (D.words dev.now) self i) }
        ensures page { IfSome result (λ p. IsTable (D.words dev.now) 4 p) }
        ensures small { IfSome result (λ p. p < 2 ^ 52) }
    {
        let page = entry_of(dev, self.page, i)?;
        Some(Page::new(page))
    }
}

/// The page at an address; `None` exactly where one of the four entries on the way is 0.
pub fn walk<D: Pm>(dev: &D, v: Vaddr) -> Option<Page>
    requires entries { AreEntries (D.words dev.now) }
    ensures exact { result ≡ some_page (page_of (D.words dev.now) v) }
    ensures page { IfSome result (λ p. IsTable (D.words dev.now) 4 p) }
    ensures small { IfSome result (λ p. p < 2 ^ 52) }
{
    let address = v.get();
    let third = root().child(dev, address / SLOT_SPAN % TABLE_ENTRIES)?;
    let second = third.child(dev, address / SECOND_SPAN % TABLE_ENTRIES)?;
    let first = second.child(dev, address / FIRST_SPAN % TABLE_ENTRIES)?;
    first.page(dev, address / PAGE_BYTES % TABLE_ENTRIES)
}

/// The word at an address, 0 where there is no page.
pub fn load_at<D: Pm>(dev: &D, v: Vaddr) -> u64
    requires tables { AreTables (D.words dev.now) }
    requires aligned { v % 8 ≡ 0 }
    ensures { result ≡ word_in (D.words dev.now) (page_of (D.words dev.now) v) (v % PAGE_BYTES / 8) }
{
    match walk(dev, v) {
        Some(page) => dev.load(page.number() * PAGE_WORDS + v.get() % PAGE_BYTES / 8),
        None => 0,
    }
}

/// The byte at an address, 0 where there is no page.
pub fn byte_at<D: Pm>(dev: &D, v: Vaddr) -> u8
    requires tables { AreTables (D.words dev.now) }
    ensures { result ≡ byte (D.words dev.now) v }
{
    match walk(dev, v) {
        Some(page) => {
            let offset = v.get() % PAGE_BYTES;
            let word = dev.load(page.number() * PAGE_WORDS + offset / 8);
            (word / 256u64.pow((offset % 8) as u32) % 256) as u8
        }
        None => 0,
    }
}

/// The page of the table that so many index steps from the root reach on the way to virtual page `p`; `None` exactly where
/// an entry on the way is 0.
pub fn table_at<D: Pm>(dev: &D, p: u64, depth: u32) -> Option<u64>
    requires tables { AreTables (D.words dev.now) }
    requires deep { depth ≤ 3 }
    requires low { p < TABLE_ENTRIES ^ 4 }
    ensures exact { result ≡ some_page (on_way (D.words dev.now) p depth) }
    ensures small { IfSome result (λ t. t < 2 ^ 52) }
{
    if depth == 0 {
        return Some(ROOT_PAGE);
    }
    let table = table_at(dev, p, depth - 1)?;
    entry_of(dev, table, p / TABLE_ENTRIES.pow(4 - depth) % TABLE_ENTRIES)
}
