// The entries of two ranges of virtual pages change places, piece by piece.
ghost use Rattle.std.specs.Prelude.{◌≡◌, ◌≢◌, ℕ, ◌+◌, ◌-◌, ◌*◌, ◌/◌, ◌%◌, ◌^◌, ◌<◌, ◌≤◌, ◌∷◌, ◌++◌, length, All, OnOk};
ghost use Rattle.ct_base.specs.Causes.{HasCause};
ghost use Rattle.ct_base.specs.Exchange.{Apart, Exchanged, HasTables, entry_at};
ghost use Rattle.ct_base.specs.Pieces.{pieces};
ghost use Rattle.ct_base.specs.Walk.{page_at, AreTables};
ghost use Rattle.ct_record.specs.Seen.{Drafts, count_of, drafted, faults_under, pairs_of, words_under};
ghost use Rattle.ct_swap.specs.Swap.{AreDistinct, LeaveTables, first_pair, second_pair, swap_pairs};

use ct_base::{MOST_LONG_PAIRS, PAGE_WORDS, TABLE_ENTRIES};
use ct_pieces::Pieces;
use ct_pm::{Pm, PmFault};
use ct_record::Draft;
use ct_walk::table_at;

// The word of the entry for a piece of a height at a virtual page.
fn entry_word<D: Pm>(dev: &D, p: u64, height: u32) -> u64
    requires tables { AreTables (D.words dev.now) }
    requires height { height ≤ 3 }
    requires low { p < TABLE_ENTRIES ^ 4 }
    requires there { page_at (D.words dev.now) (3 - height) (p / TABLE_ENTRIES ^ (height + 1)) ≢ 0 }
    ensures { result ≡ entry_at (D.words dev.now) p height }
{
    let index = p / TABLE_ENTRIES.pow(height) % TABLE_ENTRIES;
    match table_at(dev, p, 3 - height) {
        Some(table) => table * PAGE_WORDS + index,
        None => unreachable!(),
    }
}

// Drafts the exchange of two entries, for a piece of a height at two virtual pages.
fn swap_piece<D: Pm>(draft: &mut Draft<D>, p: u64, q: u64, height: u32) -> Result<(), PmFault>
    requires tables { AreTables (words_under draft.old) }
    requires height { height ≤ 3 }
    requires first { p < TABLE_ENTRIES ^ 4 }
    requires second { q < TABLE_ENTRIES ^ 4 }
    requires first_there { page_at (words_under draft.old) (3 - height) (p / TABLE_ENTRIES ^ (height + 1)) ≢ 0 }
    requires second_there { page_at (words_under draft.old) (3 - height) (q / TABLE_ENTRIES ^ (height + 1)) ≢ 0 }
    requires room { count_of draft.old + 2 ≤ MOST_LONG_PAIRS }
    ensures added { OnOk result (pairs_of draft.new ≡ second_pair (words_under draft.old) p q height ∷ first_pair (words_under draft.old) p q height ∷ pairs_of draft.old) }
    ensures count { OnOk result (count_of draft.new ≡ count_of draft.old + 2) }
    ensures drafts { Drafts draft.old draft.new }
    ensures cause { HasCause (faults_under draft.old) (faults_under draft.new) result }
{
    let first = entry_word(draft.dev(), p, height);
    let second = entry_word(draft.dev(), q, height);
    let first_value = draft.dev().load(first);
    let second_value = draft.dev().load(second);
    draft.add(first, second_value)?;
    draft.add(second, first_value)
}

/// Drafts the exchange of the `n` virtual pages from `a` on with those from `b` on: two pairs a piece, of distinct words.
///
/// After the pairs the walk of each page of one range is what its partner's was, and all other walks stay. After an error
/// the draft has some of the pairs, and is to be abandoned.
///
/// # Errors
///
/// `PmFault` where the device failed.
pub fn pswap<D: Pm>(draft: &mut Draft<D>, a: u64, b: u64, n: u64) -> Result<(), PmFault>
    requires first { a + n ≤ TABLE_ENTRIES ^ 4 }
    requires second { b + n ≤ TABLE_ENTRIES ^ 4 }
    requires apart { Apart a b n }
    requires tables { AreTables (words_under draft.old) }
    requires there { All (HasTables (words_under draft.old) a b) (pieces a b n) }
    requires free { LeaveTables (words_under draft.old) (pairs_of draft.old) }
    requires room { count_of draft.old + 2 * length (pieces a b n) ≤ MOST_LONG_PAIRS }

    ensures exchanged { OnOk result (Exchanged (drafted draft.old) (drafted draft.new) a b n) }
    ensures pairs { OnOk result (pairs_of draft.new ≡ swap_pairs (words_under draft.old) a b (pieces a b n) ++ pairs_of draft.old) }
    ensures distinct { OnOk result (AreDistinct (swap_pairs (words_under draft.old) a b (pieces a b n))) }
    ensures count { OnOk result (count_of draft.new ≡ count_of draft.old + 2 * length (pieces a b n)) }
    ensures drafts { Drafts draft.old draft.new }
    ensures cause { HasCause (faults_under draft.old) (faults_under draft.new) result }
{
    for piece in Pieces::new(a, b, n) {
        swap_piece(draft, a + piece.offset, b + piece.offset, piece.height)?;
    }
    Ok(())
}
