// Mount rules 8 and 9: what the tables name, and that no page is reached twice.
ghost use Rattle.std.specs.Prelude.{◌≡◌, ◌↔◌, ℕ, ◌*◌, ◌≤◌, length, Contains, IfOk, IfErr};
ghost use Rattle.ct_base.specs.Free.{IsFreePage};
ghost use Rattle.ct_base.specs.Head.{HasHead};
ghost use Rattle.ct_base.specs.Walk.{page_count, AreTables};
ghost use Rattle.ct_check.specs.Reading.{Walked};
ghost use Rattle.ct_check.specs.Rules.{HasNoStaging, HoldBelow, Stops, Tells};
ghost use Rattle.ct_frames.specs.Agrees.{Agrees};

use crate::fault::{CheckFault, Stop};
use crate::frames::unmarked;
use crate::level::next_level;
use ct_base::{FIRST_PAGE, MOST_PAGES, PAGE_WORDS, ROOT_PAGE};
use ct_frames::Frames;
use ct_marks::{Met, no_marks, set_mark};
use ct_pm::Pm;
use std::alloc::Global;

// Reads the tables of all four levels.
fn read_levels<D: Pm>(alloc: Global, dev: &D, pages: u64) -> Result<Met, Stop>
    requires pages { pages ≡ page_count (D.words dev.now) }
    requires fits { PAGE_WORDS * pages ≤ length (D.words dev.now) }
    requires some { FIRST_PAGE ≤ pages }
    requires few { pages ≤ MOST_PAGES }
    ensures walked { IfOk result (λ met. Walked (D.words dev.now) 4 0 met.pages.items met.twice) }
    ensures stops { IfErr result (Stops (D.words dev.now)) }
{
    let mut level = match no_marks(alloc, pages) {
        Ok(level) => level,
        Err(_) => return Err(Stop::Memory),
    };
    let mut met = match no_marks(alloc, pages) {
        Ok(marks) => Met {
            pages: marks,
            twice: false,
        },
        Err(_) => return Err(Stop::Memory),
    };
    set_mark(&mut level, ROOT_PAGE);
    for depth in 0..4u32 {
        level = match next_level(alloc, dev, pages, &level, &mut met) {
            Ok(next) => next,
            Err(stop) => return Err(stop),
        };
    }
    Ok(met)
}

/// Mount rules 8 and 9, and the free pages where neither fails.
///
/// Each table is read once a level, however often it is named, so an image whose tables name each other is read to its end.
///
/// # Errors
///
/// `Damage` with the first of the two rules that fails, or `Memory`.
pub fn check_tables<D: Pm>(alloc: Global, dev: &D) -> Result<Frames, CheckFault>
    requires head { HasHead (D.words dev.now) }
    requires staging { HasNoStaging (D.words dev.now) }
    ensures tables { IfOk result (λ frames. AreTables (D.words dev.now)) }
    ensures frames { IfOk result (λ frames. Agrees (D.words dev.now) frames) }
    ensures free { IfOk result (λ frames. (q : ℕ) → Contains frames.free q ↔ IsFreePage (D.words dev.now) q) }
    ensures rules { IfOk result (λ frames. HoldBelow (D.words dev.now) 10) }
    ensures damage { IfErr result (Tells (D.words dev.now)) }
{
    let pages = dev.load(2);
    let met = match read_levels(alloc, dev, pages) {
        Ok(met) => met,
        Err(Stop::Entry) => return Err(CheckFault::Damage(8)),
        Err(Stop::Memory) => return Err(CheckFault::Memory),
    };
    if met.twice {
        return Err(CheckFault::Damage(9));
    }
    match unmarked(alloc, pages, &met.pages) {
        Ok(frames) => Ok(frames),
        Err(_) => Err(CheckFault::Memory),
    }
}
