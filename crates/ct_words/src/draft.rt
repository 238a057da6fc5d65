// Words by address, read and changed through a draft.
ghost use Rattle.std.specs.Prelude.{◌≡◌, ◌≢◌, ℕ, ◌+◌, ◌/◌, ◌%◌, ◌<◌, ◌≤◌, ◌∷◌, OnOk, OnErr};
ghost use Rattle.ct_base.specs.Causes.{HasCause};
ghost use Rattle.ct_base.specs.Walk.{page_at};
ghost use Rattle.ct_base.specs.Words.{place_at, word_at};
ghost use Rattle.ct_record.specs.Seen.{Drafts, count_of, drafted, faults_under, pairs_of, words_under};
ghost use Rattle.ct_words.specs.Drafted.{KeepsCells, MapsAlike};

use crate::load::place_of;
use ct_base::{ADDRESS_END, MOST_LONG_PAIRS, PAGE_BYTES, SLOT_SPAN};
use ct_pm::{Pm, PmFault};
use ct_record::Draft;

/// The word at an address after the pairs so far.
pub fn value_at<D: Pm>(draft: &Draft<D>, address: u64) -> u64
    requires maps { MapsAlike (address / SLOT_SPAN) (words_under draft.now) (drafted draft.now) }
    requires high { address < ADDRESS_END }
    requires there { page_at (words_under draft.now) 4 (address / PAGE_BYTES) ≢ 0 }
    ensures { result ≡ word_at (drafted draft.now) address }
{
    draft.value(place_of(draft.dev(), address))
}

/// Drafts the word at an address.
pub fn store_at<D: Pm>(draft: &mut Draft<D>, address: u64, value: u64) -> Result<(), PmFault>
    requires maps { MapsAlike (address / SLOT_SPAN) (words_under draft.old) (drafted draft.old) }
    requires high { address < ADDRESS_END }
    requires there { page_at (words_under draft.old) 4 (address / PAGE_BYTES) ≢ 0 }
    requires room { count_of draft.old < MOST_LONG_PAIRS }

    ensures added { OnOk result (pairs_of draft.new
        ≡ record { word = place_at (words_under draft.old) address; value = value } ∷ pairs_of draft.old) }
    ensures count { OnOk result (count_of draft.new ≡ count_of draft.old + 1) }
    ensures kept { OnErr result (pairs_of draft.new ≡ pairs_of draft.old) }
    ensures count_err { OnErr result (count_of draft.new ≡ count_of draft.old) }

    ensures written { OnOk result (word_at (drafted draft.new) address ≡ value) }
    ensures others { OnOk result ((a : ℕ) → (a / PAGE_BYTES ≡ address / PAGE_BYTES → a % PAGE_BYTES / 8 ≢ address % PAGE_BYTES / 8)
        → word_at (drafted draft.new) a ≡ word_at (drafted draft.old) a) }
    ensures cells { OnOk result (KeepsCells (drafted draft.old) (drafted draft.new)) }
    ensures maps { OnOk result ((slot : ℕ) → MapsAlike slot (words_under draft.old) (drafted draft.old)
        → MapsAlike slot (words_under draft.new) (drafted draft.new)) }

    ensures drafts { Drafts draft.old draft.new }
    ensures cause { HasCause (faults_under draft.old) (faults_under draft.new) result }
{
    let place = place_of(draft.dev(), address);
    draft.add(place, value)?;
    Ok(())
}
