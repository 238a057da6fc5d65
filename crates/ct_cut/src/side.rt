// The staging slot before a cut: tables, and the page on the edge, under one fence.
ghost use Rattle.std.specs.Prelude.{◌≡◌, ◌≢◌, ℕ, ◌+◌, ◌-◌, ◌*◌, ◌/◌, ◌<◌, ◌≤◌, List, length, Contains, Option, OnOk};
ghost use Rattle.ct_base.specs.Causes.{HasCause};
ghost use Rattle.ct_base.specs.Spares.{SparesFiles};
ghost use Rattle.ct_base.specs.State.{SameState};
ghost use Rattle.ct_base.specs.View.{view};
ghost use Rattle.ct_base.specs.Walk.{AreTables, byte, page_at, word};
ghost use Rattle.ct_base.specs.Wants.{Want as Wanted, missing};
ghost use Rattle.ct_cut.specs.Sides.{edge_page, side_tables, staged_wants, zeros};
ghost use Rattle.ct_frames.specs.Agrees.{Agrees};
ghost use Rattle.ct_frames.specs.Free.{FreePages};
ghost use Rattle.ct_plan.specs.Few.{AreMet, edge as edge_of};
ghost use Rattle.ct_pm.specs.Images.{History};
ghost use Rattle.ct_pm.specs.Device.{LeavesOnly, NothingPending, StoresOver};
ghost use Rattle.ct_stage.specs.Edited.{staged_words};
ghost use Rattle.ct_stage.specs.Staged.{Begun, Holds, IsLaid, IsResting, Makes, SeesSame, Works};
ghost use Rattle.ct_walk.specs.Growth.{Covers};
ghost use Rattle.ct_walk.specs.Pages.{on_way};

use ct_base::{ADDRESS_END, PAGE_BYTES, PARTITION_SLOT, ROOT_WORD, SLOT_PAGES, STAGING_SLOT};
use ct_frames::Frames;
use ct_plan::edge;
use ct_pm::{Pm, PmFault};
use ct_stage::{Edit, Given, edited_page, stage_end, stage_page, stage_table};

// Makes the tables for pages b and on, n of them, in root slot 2; nothing is waited for.
fn stage_tables<D: Pm>(dev: &mut D, frames: &mut Frames, b: u64, n: u64) -> Result<(), PmFault>
    requires tables { AreTables (D.words dev.old) }
    requires agrees { Agrees (D.words dev.old) frames.old }
    requires from { STAGING_SLOT * SLOT_PAGES ≤ b }
    requires to { b + n ≤ (STAGING_SLOT + 1) * SLOT_PAGES }
    requires some { 1 ≤ n }
    requires room { missing (D.words dev.old) (side_tables b n) ≤ length frames.old.free }
    ensures works { (start : List ℕ) → (was : Option History) → (first : FreePages) → Begun start (D.words dev.old) was (D.told dev.old) first frames.old →
        Works (ROOT_WORD + STAGING_SLOT) start (D.words dev.new) was (D.told dev.new) first frames.new }
    ensures first { OnOk result (on_way (D.words dev.new) b (4 - edge_of 3 b) ≢ 0) }
    ensures last { OnOk result (on_way (D.words dev.new) (b + n - 1) (4 - edge_of 3 (b + n)) ≢ 0) }
    ensures makes { OnOk result ((wants : List Wanted) → Covers wants b (4 - edge_of 3 b) → Covers wants (b + n - 1) (4 - edge_of 3 (b + n)) → Makes wants (D.words dev.old) (D.words dev.new) frames.old frames.new) }
    ensures begun { OnOk result ((start : List ℕ) → (was : Option History) → (first : FreePages) → Begun start (D.words dev.old) was (D.told dev.old) first frames.old →
        Begun start (D.words dev.new) was (D.told dev.new) first frames.new) }
    ensures left { OnOk result ((q : ℕ) → Contains frames.new.free q → Contains frames.old.free q) }
    ensures cause { HasCause (D.faults dev.old) (D.faults dev.new) result }
{
    stage_table(dev, frames, b, 4 - edge(3, b))?;
    stage_table(dev, frames, b + n - 1, 4 - edge(3, b + n))?;
    Ok(())
}

// Makes page b with the bytes of page a and zeros from an address on, where these begin behind the page's begin.
fn stage_edge<D: Pm>(
    dev: &mut D,
    frames: &mut Frames,
    a: u64,
    b: u64,
    from: u64,
    to: u64,
) -> Result<(), PmFault>
    requires tables { AreTables (D.words dev.old) }
    requires agrees { Agrees (D.words dev.old) frames.old }
    requires first_from { PARTITION_SLOT * SLOT_PAGES ≤ a }
    requires first_to { a < ADDRESS_END / PAGE_BYTES }
    requires second_from { STAGING_SLOT * SLOT_PAGES ≤ b }
    requires second_to { b < (STAGING_SLOT + 1) * SLOT_PAGES }
    requires absent { page_at (D.words dev.old) 4 b ≡ 0 }
    requires room { missing (D.words dev.old) (edge_page a b from) ≤ length frames.old.free }
    ensures works { (start : List ℕ) → (was : Option History) → (first : FreePages) → Begun start (D.words dev.old) was (D.told dev.old) first frames.old →
        Works (ROOT_WORD + STAGING_SLOT) start (D.words dev.new) was (D.told dev.new) first frames.new }
    ensures holds { OnOk result (a * PAGE_BYTES < from → Holds (D.words dev.new) b (staged_words (D.words dev.old) (zeros from to) a)) }
    ensures makes { OnOk result ((wants : List Wanted) → (a * PAGE_BYTES < from → Covers wants b 4) → Makes wants (D.words dev.old) (D.words dev.new) frames.old frames.new) }
    ensures begun { OnOk result ((start : List ℕ) → (was : Option History) → (first : FreePages) → Begun start (D.words dev.old) was (D.told dev.old) first frames.old →
        Begun start (D.words dev.new) was (D.told dev.new) first frames.new) }
    ensures left { OnOk result ((q : ℕ) → Contains frames.new.free q → Contains frames.old.free q) }
    ensures cause { HasCause (D.faults dev.old) (D.faults dev.new) result }
{
    if from <= a * PAGE_BYTES {
        return Ok(());
    }
    let edit = Edit {
        from,
        to,
        given: Given::Same(0),
    };
    let words = edited_page(dev, &edit, a * PAGE_BYTES);
    stage_page(dev, frames, b, &words)?;
    Ok(())
}

// Makes the tables and the page, and waits for them.
fn stage_work<D: Pm>(
    dev: &mut D,
    frames: &mut Frames,
    a: u64,
    b: u64,
    n: u64,
    from: u64,
    to: u64,
) -> Result<(), PmFault>
    requires tables { AreTables (D.words dev.old) }
    requires agrees { Agrees (D.words dev.old) frames.old }
    requires settled { NothingPending (D.told dev.old) }
    requires empty { word (D.words dev.old) (ROOT_WORD + STAGING_SLOT) ≡ 0 }
    requires some { 1 ≤ n }
    requires first_from { PARTITION_SLOT * SLOT_PAGES ≤ a }
    requires first_to { a + n ≤ ADDRESS_END / PAGE_BYTES }
    requires second_from { STAGING_SLOT * SLOT_PAGES ≤ b }
    requires second_to { b + n ≤ (STAGING_SLOT + 1) * SLOT_PAGES }
    requires room { missing (D.words dev.old) (staged_wants a b n from) ≤ length frames.old.free }
    ensures works { Works (ROOT_WORD + STAGING_SLOT) (D.words dev.old) (D.words dev.new) (D.told dev.old) (D.told dev.new) frames.old frames.new }
    ensures makes { OnOk result (Makes (staged_wants a b n from) (D.words dev.old) (D.words dev.new) frames.old frames.new) }
    ensures met { OnOk result (AreMet (D.words dev.new) (staged_wants a b n from)) }
    ensures holds { OnOk result (a * PAGE_BYTES < from → Holds (D.words dev.new) b (staged_words (D.words dev.old) (zeros from to) a)) }
    ensures settled { OnOk result (NothingPending (D.told dev.new)) }
    ensures cause { HasCause (D.faults dev.old) (D.faults dev.new) result }
{
    stage_tables(dev, frames, b, n)?;
    stage_edge(dev, frames, a, b, from, to)?;
    stage_end(dev)?;
    Ok(())
}

// Stages for a cut of pages a and on, n of them, that leaves zeros from an address on: the tables for pages b and on in the
// empty root slot 2 and, where the address is no begin of a page, the first page. A crash at any moment leaves what settles to
// the words at entry.
pub fn stage_side<D: Pm>(
    dev: &mut D,
    frames: &mut Frames,
    a: u64,
    b: u64,
    n: u64,
    from: u64,
    to: u64,
) -> Result<(), PmFault>
    requires rest { IsResting (D.words dev.old) }
    requires agrees { Agrees (D.words dev.old) frames.old }
    requires settled { NothingPending (D.told dev.old) }
    requires some { 1 ≤ n }
    requires first_from { PARTITION_SLOT * SLOT_PAGES ≤ a }
    requires first_to { a + n ≤ ADDRESS_END / PAGE_BYTES }
    requires second_from { STAGING_SLOT * SLOT_PAGES ≤ b }
    requires second_to { b + n ≤ (STAGING_SLOT + 1) * SLOT_PAGES }
    requires room { missing (D.words dev.old) (staged_wants a b n from) ≤ length frames.old.free }

    ensures met { OnOk result (AreMet (D.words dev.new) (staged_wants a b n from)) }
    ensures holds { OnOk result (a * PAGE_BYTES < from → Holds (D.words dev.new) b (staged_words (D.words dev.old) (zeros from to) a)) }
    ensures unmapped { OnOk result ((q : ℕ) → q / SLOT_PAGES ≡ STAGING_SLOT → (a * PAGE_BYTES < from → q ≢ b) → page_at (D.words dev.new) 4 q ≡ 0) }
    ensures agrees { OnOk result (Agrees (D.words dev.new) frames.new) }
    ensures taken { OnOk result (length frames.new.free + missing (D.words dev.old) (staged_wants a b n from) ≡ length frames.old.free) }
    ensures settled { OnOk result (NothingPending (D.told dev.new)) }

    // Whatever the result, nothing that is seen changes.
    ensures stores { StoresOver SparesFiles (D.told dev.old) (D.told dev.new) }
    ensures seen { SeesSame (D.words dev.old) (D.words dev.new) }
    ensures seen_images { LeavesOnly (D.told dev.old) (D.told dev.new) (SeesSame (D.words dev.old)) }
    ensures laid { OnOk result (IsLaid (D.words dev.new)) }
    ensures state { SameState (D.words dev.old) (D.words dev.new) }
    ensures state_images { LeavesOnly (D.told dev.old) (D.told dev.new) (SameState (D.words dev.old)) }
    ensures size { length (D.words dev.new) ≡ length (D.words dev.old) }
    ensures cause { HasCause (D.faults dev.old) (D.faults dev.new) result }
{
    stage_work(dev, frames, a, b, n, from, to)?;
    Ok(())
}
