// The pairs of one growth: headers, inode and exchange.
ghost use Rattle.std.specs.Prelude.{◌≡◌, ◌≢◌, ℕ, ◌+◌, ◌*◌, ◌/◌, ◌<◌, ◌≤◌, ◌⊎◌, [], List, true, OnOk};
ghost use Rattle.ct_base.specs.Causes.{HasCause};
ghost use Rattle.ct_base.specs.Exchange.{Exchanged};
ghost use Rattle.ct_base.specs.Headers.{StandFor, is_one};
ghost use Rattle.ct_base.specs.Inode.{IsPart, Partition, is_free, number_of, part};
ghost use Rattle.ct_base.specs.View.{view};
ghost use Rattle.ct_base.specs.Walk.{AreTables};
ghost use Rattle.ct_header.specs.Drafted.{AreThere};
ghost use Rattle.ct_level.specs.Any.{partition};
ghost use Rattle.ct_record.specs.Seen.{Drafts, count_of, drafted, faults_under, pairs_of, words_under};
ghost use Rattle.ct_swap.specs.Swap.{LeaveTables};
ghost use Rattle.ct_words.specs.Drafted.{MapsAlike};
ghost use Rattle.ct_grow.specs.Drafted.{CanMove, HasOld, IsOnPaths, IsWritten, Moves, NamePlaces, Places, parts_after};
ghost use Rattle.ct_grow.specs.Grown.{pages_of};
ghost use Rattle.ct_grow.specs.Moments.{IsSpare};
ghost use Rattle.ct_base.specs.Settled.{Named};

use crate::parts::part_at;
use ct_base::{Inode, MOST_GROWTH_PAIRS, NO_PARTITION, PAGE_BYTES, Vaddr};
use ct_header::{release, take};
use ct_inode::place;
use ct_level::AnyPart;
use ct_pm::{Pm, PmFault};
use ct_record::Draft;
use ct_swap::pswap;
use ct_words::put_words;

// The partition of an inode that has one.
fn part_of(inode: Inode) -> AnyPart
    requires { IsPart (part inode) }
    ensures { partition result ≡ part inode }
{
    match Vaddr::new(inode.base) {
        Some(base) => part_at(inode.level as u32, base),
        None => unreachable!(),
    }
}

// Drafts that the new partition becomes live, and the old one free.
fn move_headers<D: Pm>(
    draft: &mut Draft<D>,
    old: Inode,
    level: u32,
    base: Vaddr,
) -> Result<(), PmFault>
    requires maps { MapsAlike 1 (words_under draft.old) (drafted draft.old) }
    requires new { IsPart (record { base = base; level = level }) }
    requires new_there { AreThere (words_under draft.old) (record { base = base; level = level }) }
    requires old { old.level ≢ NO_PARTITION → IsPart (part old) × AreThere (words_under draft.old) (part old) }
    requires none { pairs_of draft.old ≡ [] }
    requires count { count_of draft.old ≡ 0 }
    ensures stand { OnOk result ((ps : List Partition) → StandFor (view (words_under draft.old)) ps → is_free ps (record { base = base; level = level }) ≡ true
        → (old.level ≢ NO_PARTITION → is_one ps old.level (number_of (part old)) ≡ true)
        → StandFor (view (drafted draft.new)) (parts_after old (record { base = base; level = level }) ps)) }
    ensures named { OnOk result (NamePlaces (words_under draft.old) (IsOnPaths old (record { base = base; level = level })) (pairs_of draft.new)) }
    ensures maps { OnOk result ((slot : ℕ) → MapsAlike slot (words_under draft.new) (drafted draft.new)) }
    ensures count { OnOk result (count_of draft.new ≤ 20) }
    ensures drafts { Drafts draft.old draft.new }
    ensures cause { HasCause (faults_under draft.old) (faults_under draft.new) result }
{
    take(draft, part_at(level, base))?;
    if old.level == NO_PARTITION {
        return Ok(());
    }
    release(draft, part_of(old))?;
    Ok(())
}

// Drafts the headers, and the base and the level of the inode.
fn move_places<D: Pm>(
    draft: &mut Draft<D>,
    number: u64,
    old: Inode,
    level: u32,
    base: Vaddr,
) -> Result<(), PmFault>
    requires tables { AreTables (words_under draft.old) }
    requires can { CanMove (words_under draft.old) number old (record { base = base; level = level }) }
    requires none { pairs_of draft.old ≡ [] }
    requires count { count_of draft.old ≡ 0 }
    ensures places { OnOk result (Places (words_under draft.old) (drafted draft.new) number old (record { base = base; level = level })) }
    ensures leave { OnOk result (LeaveTables (words_under draft.new) (pairs_of draft.new)) }
    ensures spare { OnOk result ((w : ℕ) → Named (pairs_of draft.new) w → IsSpare (words_under draft.old) w) }
    ensures some { OnOk result (0 < count_of draft.new) }
    ensures count { OnOk result (count_of draft.new ≤ 22) }
    ensures drafts { Drafts draft.old draft.new }
    ensures cause { HasCause (faults_under draft.old) (faults_under draft.new) result }
{
    move_headers(draft, old, level, base)?;
    let words = [base.get(), level as u64];
    put_words(draft, place(number).get() + 16, &words)?;
    Ok(())
}

// Drafts that the pages of the old partition change places with the first of the new one.
fn move_pages<D: Pm>(
    draft: &mut Draft<D>,
    old: Inode,
    level: u32,
    base: Vaddr,
) -> Result<(), PmFault>
    requires tables { AreTables (words_under draft.old) }
    requires after { AreTables (drafted draft.old) }
    requires has { old.level ≢ NO_PARTITION → HasOld (words_under draft.old) old (record { base = base; level = level }) }
    requires new { IsPart (record { base = base; level = level }) }
    requires leave { LeaveTables (words_under draft.old) (pairs_of draft.old) }
    requires count { count_of draft.old ≤ 22 }
    ensures exchanged { OnOk result (Exchanged (drafted draft.old) (drafted draft.new) (old.base / PAGE_BYTES) (base / PAGE_BYTES) (pages_of old)) }
    ensures spare { OnOk result ((w : ℕ) → Named (pairs_of draft.new) w → Named (pairs_of draft.old) w ⊎ IsSpare (words_under draft.old) w) }
    ensures more { OnOk result (count_of draft.old ≤ count_of draft.new) }
    ensures count { OnOk result (count_of draft.new ≤ MOST_GROWTH_PAIRS) }
    ensures drafts { Drafts draft.old draft.new }
    ensures cause { HasCause (faults_under draft.old) (faults_under draft.new) result }
{
    if old.level == NO_PARTITION {
        return Ok(());
    }
    let pages = 8u64.pow(old.level as u32);
    pswap(draft, old.base / PAGE_BYTES, base.get() / PAGE_BYTES, pages)?;
    Ok(())
}

/// Drafts the whole move of an object to the partition of a level at an address: at most 150 pairs.
///
/// After an error the draft has some of the pairs, and is to be abandoned.
///
/// # Errors
///
/// `PmFault` where the device failed.
pub fn move_object<D: Pm>(
    draft: &mut Draft<D>,
    number: u64,
    old: Inode,
    level: u32,
    base: Vaddr,
) -> Result<(), PmFault>
    requires tables { AreTables (words_under draft.old) }
    requires can { CanMove (words_under draft.old) number old (record { base = base; level = level }) }
    requires none { pairs_of draft.old ≡ [] }
    requires count { count_of draft.old ≡ 0 }
    ensures moves { OnOk result (Moves (words_under draft.old) (drafted draft.new) number old (record { base = base; level = level })) }
    ensures spare { OnOk result ((w : ℕ) → Named (pairs_of draft.new) w → IsSpare (words_under draft.old) w) }
    ensures some { OnOk result (0 < count_of draft.new) }
    ensures few { OnOk result (count_of draft.new ≤ MOST_GROWTH_PAIRS) }
    ensures drafts { Drafts draft.old draft.new }
    ensures cause { HasCause (faults_under draft.old) (faults_under draft.new) result }
{
    move_places(draft, number, old, level, base)?;
    move_pages(draft, old, level, base)?;
    Ok(())
}
