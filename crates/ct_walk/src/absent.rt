// How many cells have no page, counted by the entries of the tables that are there.
ghost use Rattle.std.specs.Prelude.{◌≡◌, ◌≢◌, ℕ, ◌+◌, ◌-◌, ◌*◌, ◌/◌, ◌^◌, ◌%◌, ◌<◌, ◌≤◌, ◌↔◌, IsTrue, IfSome, IfNone};
ghost use Rattle.ct_base.specs.Walk.{page_at, AreTables};
ghost use Rattle.ct_base.specs.Wants.{missing as missing_of, missing_at as missing_at_of};
ghost use Rattle.ct_walk.specs.Has.{Has};
ghost use Rattle.ct_walk.specs.Looks.{Finds};
ghost use Rattle.ct_walk.specs.Runs.{absent_below, IsMissing, NoneMissing};

use crate::steps::entry_of;
use crate::wants::{Want, next_run};
use ct_base::{PAGE_WORDS, ROOT_PAGE, TABLE_ENTRIES};
use ct_pm::Pm;

/// What the way to a cell meets.
#[derive(Clone, Copy, Debug, Drop)]
enum Look {
    // The page of the cell.
    Present(u64),
    // That so many cells from this one on have none, since one entry on their way is 0.
    Absent(u64),
}

fn look_at<D: Pm>(dev: &D, depth: u32, x: u64) -> Look
    requires tables { AreTables (D.words dev.now) }
    requires deep { depth ≤ 4 }
    requires low { x < TABLE_ENTRIES ^ depth }
    ensures { Finds (D.words dev.now) depth x result }
{
    if depth == 0 {
        return Look::Present(ROOT_PAGE);
    }
    match look_at(dev, depth - 1, x / TABLE_ENTRIES) {
        Look::Absent(cells) => Look::Absent(cells * TABLE_ENTRIES - x % TABLE_ENTRIES),
        Look::Present(table) => match entry_of(dev, table, x % TABLE_ENTRIES) {
            Some(page) => Look::Present(page),
            None => Look::Absent(1),
        },
    }
}

/// How many cells from x on, and before `to`, have no page together with it; 0 where x has one.
pub fn absent_from<D: Pm>(dev: &D, depth: u32, x: u64, to: u64) -> u64
    requires tables { AreTables (D.words dev.now) }
    requires deep { depth ≤ 4 }
    requires order { x < to }
    requires within { to ≤ TABLE_ENTRIES ^ depth }
    ensures present { result ≡ 0 → page_at (D.words dev.now) depth x ≢ 0 }
    ensures absent { (y : ℕ) → x ≤ y → y < x + result → page_at (D.words dev.now) depth y ≡ 0 }
    ensures most { x + result ≤ to }
{
    match look_at(dev, depth, x) {
        Look::Present(_) => 0,
        Look::Absent(cells) => cells.min(to - x),
    }
}

// How many of the cells of a depth from `from` to `to - 1` have no page.
fn absent_between<D: Pm>(dev: &D, depth: u32, from: u64, to: u64) -> u64
    requires tables { AreTables (D.words dev.now) }
    requires deep { depth ≤ 4 }
    requires order { from ≤ to }
    requires within { to ≤ TABLE_ENTRIES ^ depth }
    ensures count { result + absent_below (D.words dev.now) depth from ≡ absent_below (D.words dev.now) depth to }
    ensures most { result + from ≤ to }
{
    let mut total = 0;
    let mut x = from;
    while x < to {
        let absent = absent_from(dev, depth, x, to);
        total += absent;
        x += absent.max(1);
    }
    total
}

/// The word of the entry that names the page of a cell, in the table that is there.
pub fn entry_of_cell<D: Pm>(dev: &D, depth: u32, x: u64) -> u64
    requires tables { AreTables (D.words dev.now) }
    requires below { 1 ≤ depth }
    requires deep { depth ≤ 4 }
    requires low { x < TABLE_ENTRIES ^ depth }
    requires table { page_at (D.words dev.now) (depth - 1) (x / TABLE_ENTRIES) ≢ 0 }
    ensures { result ≡ page_at (D.words dev.now) (depth - 1) (x / TABLE_ENTRIES) * PAGE_WORDS + x % TABLE_ENTRIES }
{
    match look_at(dev, depth - 1, x / TABLE_ENTRIES) {
        Look::Present(table) => table * PAGE_WORDS + x % TABLE_ENTRIES,
        Look::Absent(_) => unreachable!(),
    }
}

/// The first cell of a depth from one on that is wanted and has no page.
pub fn next_missing<D: Pm>(dev: &D, wants: &[Want], depth: u32, from: u64) -> Option<u64>
    requires tables { AreTables (D.words dev.now) }
    requires deep { depth ≤ 4 }
    requires within { from ≤ TABLE_ENTRIES ^ depth }
    ensures some { IfSome result (λ x. (from ≤ x) × (x < TABLE_ENTRIES ^ depth) × IsMissing (D.words dev.now) wants.now depth x) }
    ensures first { IfSome result (λ x. NoneMissing (D.words dev.now) wants.now depth from x) }
    ensures none { IfNone result (NoneMissing (D.words dev.now) wants.now depth from (TABLE_ENTRIES ^ depth)) }
{
    let mut run = next_run(wants, depth, from);
    while run.first < run.past {
        let x = run.first;
        if absent_from(dev, depth, x, run.past) != 0 {
            return Some(x);
        }
        run = next_run(wants, depth, x + 1);
    }
    None
}

// How many of the cells of a depth are wanted and have no page.
pub fn missing_at<D: Pm>(dev: &D, wants: &[Want], depth: u32) -> u64
    requires tables { AreTables (D.words dev.now) }
    requires deep { depth ≤ 4 }
    ensures exact { result ≡ missing_at_of (D.words dev.now) wants.now depth }
    ensures most { result ≤ TABLE_ENTRIES ^ depth }
{
    let mut total = 0;
    let mut run = next_run(wants, depth, 0);
    while run.first < run.past {
        total += absent_between(dev, depth, run.first, run.past);
        run = next_run(wants, depth, run.past);
    }
    total
}

/// How many tables and pages on the paths of the wants are absent; one that several wants share counts once.
///
/// Its time grows with the tables that are there, and not with the addresses: what lies below an absent table is counted
/// at once.
pub fn missing<D: Pm>(dev: &D, wants: &[Want]) -> u64
    requires { AreTables (D.words dev.now) }
    ensures { result ≡ missing_of (D.words dev.now) wants.now }
{
    missing_at(dev, wants, 1)
        + missing_at(dev, wants, 2)
        + missing_at(dev, wants, 3)
        + missing_at(dev, wants, 4)
}

/// Whether all that the want asks for is there.
pub fn has<D: Pm>(dev: &D, want: Want) -> bool
    requires { AreTables (D.words dev.now) }
    ensures { IsTrue result ↔ Has (D.words dev.now) want }
{
    let depth = 4 - want.height();
    let cells = want.cells(depth);
    absent_between(dev, depth, cells.first, cells.past) == 0
}
