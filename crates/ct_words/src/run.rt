// Words that follow each other in a page, changed through a draft.
ghost use Rattle.std.specs.Prelude.{◌≡◌, ◌≢◌, ℕ, ◌+◌, ◌*◌, ◌/◌, ◌%◌, ◌<◌, ◌≤◌, ◌++◌, length, OnOk};
ghost use Rattle.ct_base.specs.Causes.{HasCause};
ghost use Rattle.ct_base.specs.Walk.{page_at, page_count, AreTables};
ghost use Rattle.ct_base.specs.Words.{Rewrites, pairs_to, place_at};
ghost use Rattle.ct_record.specs.Seen.{Drafts, count_of, drafted, faults_under, pairs_of, words_under};
ghost use Rattle.ct_words.specs.Drafted.{MapsAlike, PutFirst};

use crate::load::place_of;
use ct_base::{ADDRESS_END, MOST_LONG_PAIRS, PAGE_BYTES, PAGE_WORDS, ROOT_WORD, SLOT_SPAN};
use ct_pm::{Pm, PmFault};
use ct_record::Draft;

// Drafts the values for the device words from a place on.
fn add_words<D: Pm>(draft: &mut Draft<D>, place: u64, values: &[u64]) -> Result<(), PmFault>
    requires low { ROOT_WORD ≤ place }
    requires high { place + length values.now ≤ PAGE_WORDS * page_count (words_under draft.old) }
    requires room { count_of draft.old + length values.now ≤ MOST_LONG_PAIRS }
    ensures added { OnOk result (pairs_of draft.new ≡ pairs_to place values.now (length values.now) ++ pairs_of draft.old) }
    ensures count { OnOk result (count_of draft.new ≡ count_of draft.old + length values.now) }
    ensures drafts { Drafts draft.old draft.new }
    ensures cause { HasCause (faults_under draft.old) (faults_under draft.new) result }
{
    for i in 0..values.len() {
        draft.add(place + i as u64, values[i])?;
    }
    Ok(())
}

/// Drafts the values for the words from an address on, all of them in one page that is there: a pair for each.
///
/// After an error the draft has some of the pairs, and is to be abandoned.
///
/// # Errors
///
/// `PmFault` where the device failed.
pub fn put_words<D: Pm>(draft: &mut Draft<D>, address: u64, values: &[u64]) -> Result<(), PmFault>
    requires tables { AreTables (words_under draft.old) }
    requires high { address < ADDRESS_END }
    requires aligned { address % 8 ≡ 0 }
    requires inside { address % PAGE_BYTES + 8 * length values.now ≤ PAGE_BYTES }
    requires there { page_at (words_under draft.old) 4 (address / PAGE_BYTES) ≢ 0 }
    requires room { count_of draft.old + length values.now ≤ MOST_LONG_PAIRS }

    ensures added { OnOk result (pairs_of draft.new
        ≡ pairs_to (place_at (words_under draft.old) address) values.now (length values.now) ++ pairs_of draft.old) }
    ensures count { OnOk result (count_of draft.new ≡ count_of draft.old + length values.now) }

    // Where the pairs so far left the tables and the pages of the root slot, the words become the values, and all others stay.
    ensures rewrites { OnOk result (MapsAlike (address / SLOT_SPAN) (words_under draft.old) (drafted draft.old)
        → Rewrites (drafted draft.old) (drafted draft.new) address values.now) }
    ensures maps { OnOk result (MapsAlike (address / SLOT_SPAN) (words_under draft.old) (drafted draft.old)
        → (slot : ℕ) → MapsAlike slot (words_under draft.old) (drafted draft.old)
        → MapsAlike slot (words_under draft.new) (drafted draft.new)) }

    ensures drafts { Drafts draft.old draft.new }
    ensures cause { HasCause (faults_under draft.old) (faults_under draft.new) result }
{
    let place = place_of(draft.dev(), address);
    add_words(draft, place, values)?;
    Ok(())
}

// Drafts the first of the values for the device words from a place on, and of the others those that change their word.
fn add_changed<D: Pm>(draft: &mut Draft<D>, place: u64, values: &[u64]) -> Result<(), PmFault>
    requires low { ROOT_WORD ≤ place }
    requires high { place + length values.now ≤ PAGE_WORDS * page_count (words_under draft.old) }
    requires room { count_of draft.old + length values.now ≤ MOST_LONG_PAIRS }
    ensures puts { OnOk result (PutFirst place values.now (length values.now) (words_under draft.old) (pairs_of draft.old) (pairs_of draft.new)) }
    ensures some { OnOk result (0 < length values.now → count_of draft.old < count_of draft.new) }
    ensures few { OnOk result (count_of draft.new ≤ count_of draft.old + length values.now) }
    ensures drafts { Drafts draft.old draft.new }
    ensures cause { HasCause (faults_under draft.old) (faults_under draft.new) result }
{
    for i in 0..values.len() {
        let word = place + i as u64;
        if i == 0 || draft.value(word) != values[i] {
            draft.add(word, values[i])?;
        }
    }
    Ok(())
}

/// Drafts the values for the words from an address on, all of them in one page that is there: a pair for the first, and one
/// for each other word that changes.
///
/// The first has its pair whether it changes or not, so that a draft is not empty after it. After an error the draft has
/// some of the pairs, and is to be abandoned.
///
/// # Errors
///
/// `PmFault` where the device failed.
pub fn put_changed<D: Pm>(draft: &mut Draft<D>, address: u64, values: &[u64]) -> Result<(), PmFault>
    requires tables { AreTables (words_under draft.old) }
    requires high { address < ADDRESS_END }
    requires aligned { address % 8 ≡ 0 }
    requires inside { address % PAGE_BYTES + 8 * length values.now ≤ PAGE_BYTES }
    requires there { page_at (words_under draft.old) 4 (address / PAGE_BYTES) ≢ 0 }
    requires room { count_of draft.old + length values.now ≤ MOST_LONG_PAIRS }

    ensures puts { OnOk result (PutFirst (place_at (words_under draft.old) address) values.now (length values.now)
        (words_under draft.old) (pairs_of draft.old) (pairs_of draft.new)) }
    ensures some { OnOk result (0 < length values.now → count_of draft.old < count_of draft.new) }
    ensures few { OnOk result (count_of draft.new ≤ count_of draft.old + length values.now) }

    // Where the pairs so far left the tables and the pages of the root slot, the words become the values, and all others stay.
    ensures rewrites { OnOk result (MapsAlike (address / SLOT_SPAN) (words_under draft.old) (drafted draft.old)
        → Rewrites (drafted draft.old) (drafted draft.new) address values.now) }
    ensures maps { OnOk result (MapsAlike (address / SLOT_SPAN) (words_under draft.old) (drafted draft.old)
        → (slot : ℕ) → MapsAlike slot (words_under draft.old) (drafted draft.old)
        → MapsAlike slot (words_under draft.new) (drafted draft.new)) }

    ensures drafts { Drafts draft.old draft.new }
    ensures cause { HasCause (faults_under draft.old) (faults_under draft.new) result }
{
    let place = place_of(draft.dev(), address);
    add_changed(draft, place, values)?;
    Ok(())
}
