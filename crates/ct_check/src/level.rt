// The tables of one level are read, each once.
ghost use Rattle.std.specs.Prelude.{◌≡◌, ◌≢◌, ℕ, suc, ◌+◌, ◌*◌, ◌<◌, ◌≤◌, length, IfSome, IfNone, IfErr, IfOk, OnOk};
ghost use Rattle.ct_base.specs.Walk.{word, page_count, next};
ghost use Rattle.ct_check.specs.Reading.{IsAt, IsLevel, Reads, Walked};
ghost use Rattle.ct_check.specs.Rules.{Stops};

use crate::fault::Stop;
use ct_base::{FIRST_PAGE, MOST_PAGES, PAGE_BYTES, PAGE_WORDS, ROOT_PAGE, TABLE_ENTRIES};
use ct_marks::{Met, has_mark, meet, no_marks};
use ct_pm::Pm;
use std::alloc::Global;

/// The page that entry `i` of a table names, 0 where it is 0; `None` exactly where it is neither.
fn entry_of<D: Pm>(dev: &D, pages: u64, table: u64, i: u64) -> Option<u64>
    requires pages { pages ≡ page_count (D.words dev.now) }
    requires fits { PAGE_WORDS * pages ≤ length (D.words dev.now) }
    requires table { table ≢ 0 }
    requires low { table < pages }
    requires index { i < TABLE_ENTRIES }
    requires few { pages ≤ MOST_PAGES }
    ensures some { IfSome result (λ p. (p ≡ next (D.words dev.now) table i) × (p ≡ 0 → word (D.words dev.now) (table * PAGE_WORDS + i) ≡ 0)) }
    ensures none { IfNone result ((next (D.words dev.now) table i ≡ 0) × (word (D.words dev.now) (table * PAGE_WORDS + i) ≢ 0)) }
{
    let entry = dev.load(table * PAGE_WORDS + i);
    if entry == 0 {
        return Some(0);
    }
    let page = entry / PAGE_BYTES;
    if entry % PAGE_BYTES == 1 && page >= FIRST_PAGE && page < pages {
        return Some(page);
    }
    None
}

/// Reads one entry of a table, and marks the page that it names.
fn read_entry<D: Pm>(
    dev: &D,
    pages: u64,
    table: u64,
    i: u64,
    next: &mut Vec<u8>,
    met: &mut Met,
) -> Result<(), Stop>
    requires pages { pages ≡ page_count (D.words dev.now) }
    requires fits { PAGE_WORDS * pages ≤ length (D.words dev.now) }
    requires few { pages ≤ MOST_PAGES }
    requires table { ROOT_PAGE ≤ table }
    requires low { table < pages }
    requires index { i < TABLE_ENTRIES }
    requires next { length next.old.items ≡ pages }
    requires met { length met.old.pages.items ≡ pages }
    ensures next { length next.new.items ≡ pages }
    ensures met { length met.new.pages.items ≡ pages }
    ensures reads { OnOk result ((d : ℕ) → IsAt (D.words dev.now) d table
        → Reads (D.words dev.now) d (table * PAGE_WORDS + i) next.old.items met.old.pages.items met.old.twice
        → Reads (D.words dev.now) d (table * PAGE_WORDS + i + 1) next.new.items met.new.pages.items met.new.twice) }
    ensures stops { IfErr result (λ stop. (d : ℕ) → d ≤ 3 → IsAt (D.words dev.now) d table → Stops (D.words dev.now) stop) }
{
    match entry_of(dev, pages, table, i) {
        None => Err(Stop::Entry),
        Some(page) => {
            if page == 0 {
                return Ok(());
            }
            meet(next, met, page);
            Ok(())
        }
    }
}

/// Reads the entries of one table.
fn read_table<D: Pm>(
    dev: &D,
    pages: u64,
    table: u64,
    next: &mut Vec<u8>,
    met: &mut Met,
) -> Result<(), Stop>
    requires pages { pages ≡ page_count (D.words dev.now) }
    requires fits { PAGE_WORDS * pages ≤ length (D.words dev.now) }
    requires few { pages ≤ MOST_PAGES }
    requires table { ROOT_PAGE ≤ table }
    requires low { table < pages }
    requires next { length next.old.items ≡ pages }
    requires met { length met.old.pages.items ≡ pages }
    ensures next { length next.new.items ≡ pages }
    ensures met { length met.new.pages.items ≡ pages }
    ensures reads { OnOk result ((d : ℕ) → IsAt (D.words dev.now) d table
        → Reads (D.words dev.now) d (table * PAGE_WORDS) next.old.items met.old.pages.items met.old.twice
        → Reads (D.words dev.now) d (table * PAGE_WORDS + PAGE_WORDS) next.new.items met.new.pages.items met.new.twice) }
    ensures stops { IfErr result (λ stop. (d : ℕ) → d ≤ 3 → IsAt (D.words dev.now) d table → Stops (D.words dev.now) stop) }
{
    for i in 0..TABLE_ENTRIES {
        read_entry(dev, pages, table, i, next, met)?;
    }
    Ok(())
}

/// Reads a table, where it is marked.
fn read_marked<D: Pm>(
    dev: &D,
    pages: u64,
    level: &Vec<u8>,
    table: u64,
    next: &mut Vec<u8>,
    met: &mut Met,
) -> Result<(), Stop>
    requires pages { pages ≡ page_count (D.words dev.now) }
    requires fits { PAGE_WORDS * pages ≤ length (D.words dev.now) }
    requires few { pages ≤ MOST_PAGES }
    requires table { ROOT_PAGE ≤ table }
    requires low { table < pages }
    requires level { length level.now.items ≡ pages }
    requires next { length next.old.items ≡ pages }
    requires met { length met.old.pages.items ≡ pages }
    ensures next { length next.new.items ≡ pages }
    ensures met { length met.new.pages.items ≡ pages }
    ensures reads { OnOk result ((d : ℕ) → IsLevel (D.words dev.now) d level.now.items
        → Reads (D.words dev.now) d (table * PAGE_WORDS) next.old.items met.old.pages.items met.old.twice
        → Reads (D.words dev.now) d (table * PAGE_WORDS + PAGE_WORDS) next.new.items met.new.pages.items met.new.twice) }
    ensures stops { IfErr result (λ stop. (d : ℕ) → d ≤ 3 → IsLevel (D.words dev.now) d level.now.items → Stops (D.words dev.now) stop) }
{
    if !has_mark(level, table) {
        return Ok(());
    }
    read_table(dev, pages, table, next, met)
}

/// Reads the tables that are marked, and marks the pages that they name.
fn read_tables<D: Pm>(
    dev: &D,
    pages: u64,
    level: &Vec<u8>,
    next: &mut Vec<u8>,
    met: &mut Met,
) -> Result<(), Stop>
    requires pages { pages ≡ page_count (D.words dev.now) }
    requires fits { PAGE_WORDS * pages ≤ length (D.words dev.now) }
    requires some { FIRST_PAGE ≤ pages }
    requires few { pages ≤ MOST_PAGES }
    requires level { length level.now.items ≡ pages }
    requires next { length next.old.items ≡ pages }
    requires met { length met.old.pages.items ≡ pages }
    ensures met { length met.new.pages.items ≡ pages }
    ensures reads { OnOk result ((d : ℕ) → IsLevel (D.words dev.now) d level.now.items
        → Reads (D.words dev.now) d 0 next.old.items met.old.pages.items met.old.twice
        → Reads (D.words dev.now) d (PAGE_WORDS * pages) next.new.items met.new.pages.items met.new.twice) }
    ensures stops { IfErr result (λ stop. (d : ℕ) → d ≤ 3 → IsLevel (D.words dev.now) d level.now.items → Stops (D.words dev.now) stop) }
{
    for table in ROOT_PAGE..pages {
        read_marked(dev, pages, level, table, next, met)?;
    }
    Ok(())
}

/// The pages that the tables of one level name.
pub fn next_level<D: Pm>(
    alloc: Global,
    dev: &D,
    pages: u64,
    level: &Vec<u8>,
    met: &mut Met,
) -> Result<Vec<u8>, Stop>
    requires pages { pages ≡ page_count (D.words dev.now) }
    requires fits { PAGE_WORDS * pages ≤ length (D.words dev.now) }
    requires some { FIRST_PAGE ≤ pages }
    requires few { pages ≤ MOST_PAGES }
    requires level { length level.now.items ≡ pages }
    requires met { length met.old.pages.items ≡ pages }
    ensures met { length met.new.pages.items ≡ pages }
    ensures level { IfOk result (λ next. (d : ℕ) → d ≤ 3 → IsLevel (D.words dev.now) d level.now.items
        → Walked (D.words dev.now) d 0 met.old.pages.items met.old.twice → IsLevel (D.words dev.now) (suc d) next.items) }
    ensures walked { OnOk result ((d : ℕ) → d ≤ 3 → IsLevel (D.words dev.now) d level.now.items
        → Walked (D.words dev.now) d 0 met.old.pages.items met.old.twice → Walked (D.words dev.now) (suc d) 0 met.new.pages.items met.new.twice) }
    ensures stops { IfErr result (λ stop. (d : ℕ) → d ≤ 3 → IsLevel (D.words dev.now) d level.now.items → Stops (D.words dev.now) stop) }
{
    let mut next = match no_marks(alloc, pages) {
        Ok(next) => next,
        Err(_) => return Err(Stop::Memory),
    };
    match read_tables(dev, pages, level, &mut next, met) {
        Ok(()) => Ok(next),
        Err(stop) => Err(stop),
    }
}
