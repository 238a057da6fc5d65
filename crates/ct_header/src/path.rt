// The header words on the path of a partition, changed one after the other.
ghost use Rattle.std.specs.Prelude.{◌≡◌, ◌≢◌, ℕ, ◌+◌, ◌-◌, ◌*◌, ◌/◌, ◌%◌, ◌^◌, ◌<◌, ◌≤◌, ◌∷◌, Bool, OnOk, OnErr, IfOk};
ghost use Rattle.std.specs.Int.{w64, from_le_bytes};
ghost use Rattle.ct_base.specs.Causes.{HasCause};
ghost use Rattle.ct_base.specs.Inode.{nth};
ghost use Rattle.ct_base.specs.Ranges.{IsPartition, Headers, Changes, byte_shown, header_at, summary};
ghost use Rattle.ct_base.specs.Walk.{page_at};
ghost use Rattle.ct_base.specs.Words.{place_at};
ghost use Rattle.ct_record.specs.Seen.{Drafts, count_of, drafted, faults_under, pairs_of, words_under};
ghost use Rattle.ct_header.specs.Drafted.{AddsPairs, AreThere, KeepsOtherBytes, NamesHeader};
ghost use Rattle.ct_words.specs.Drafted.{KeepsCells, MapsAlike};
ghost use Rattle.ct_words.specs.Shown.{shown_word};
ghost use Rattle.ct_header.specs.Bytes.{with_byte};

use crate::address::{MOST_WORDS, header_address};
use crate::sum::summary_of;
use ct_base::{MOST_LONG_PAIRS, PAGE_BYTES, TABLE_ENTRIES, TOP_LEVEL};
use ct_pm::{Pm, PmFault};
use ct_record::Draft;
use ct_words::{store_at, value_at};

/// Drafts the byte of a range of a level into the header word above it, and gives the byte that the range above then has
/// where it is not live.
fn set_byte<D: Pm>(draft: &mut Draft<D>, level: u32, number: u64, byte: u8) -> Result<u8, PmFault>
    requires maps { MapsAlike 1 (words_under draft.old) (drafted draft.old) }
    requires level { level ≤ TOP_LEVEL }
    requires number { number < TABLE_ENTRIES * 8 ^ (TOP_LEVEL - level) }
    requires there { page_at (words_under draft.old) 4 (header_at (level + 1) (number / 8) / PAGE_BYTES) ≢ 0 }
    requires room { count_of draft.old < MOST_LONG_PAIRS }

    ensures written { OnOk result (shown_word (drafted draft.new) (header_at (level + 1) (number / 8))
        ≡ from_le_bytes w64 (with_byte (shown_word (drafted draft.old) (header_at (level + 1) (number / 8))) (number % 8) byte)) }
    ensures up { IfOk result (λ b. b
        ≡ summary level (with_byte (shown_word (drafted draft.old) (header_at (level + 1) (number / 8))) (number % 8) byte)) }
    ensures others { OnOk result ((a : ℕ) → a % 8 ≡ 0 → a ≢ header_at (level + 1) (number / 8)
        → shown_word (drafted draft.new) a ≡ shown_word (drafted draft.old) a) }
    ensures cells { OnOk result (KeepsCells (drafted draft.old) (drafted draft.new)) }
    ensures maps { OnOk result (MapsAlike 1 (words_under draft.new) (drafted draft.new)) }

    ensures added { OnOk result ((value : ℕ) × (pairs_of draft.new
        ≡ record { word = place_at (words_under draft.old) (header_at (level + 1) (number / 8)); value = value } ∷ pairs_of draft.old)) }
    ensures count { OnOk result (count_of draft.new ≡ count_of draft.old + 1) }
    ensures kept { OnErr result (pairs_of draft.new ≡ pairs_of draft.old) }
    ensures drafts { Drafts draft.old draft.new }
    ensures cause { HasCause (faults_under draft.old) (faults_under draft.new) result }
{
    let address = header_address(level + 1, number / 8);
    let mut bytes = value_at(draft, address).to_le_bytes();
    bytes[(number % 8) as usize] = byte;
    store_at(draft, address, u64::from_le_bytes(bytes))?;
    Ok(summary_of(&bytes, level))
}

/// The byte of a range of a level in the header word above it, after the pairs so far.
fn byte_of<D: Pm>(draft: &Draft<D>, level: u32, number: u64) -> u8
    requires maps { MapsAlike 1 (words_under draft.now) (drafted draft.now) }
    requires level { level ≤ TOP_LEVEL }
    requires number { number < TABLE_ENTRIES * 8 ^ (TOP_LEVEL - level) }
    requires there { page_at (words_under draft.now) 4 (header_at (level + 1) (number / 8) / PAGE_BYTES) ≢ 0 }
    ensures { result ≡ byte_shown (shown_word (drafted draft.now)) level number }
{
    let bytes = value_at(draft, header_address(level + 1, number / 8)).to_le_bytes();
    bytes[(number % 8) as usize]
}

/// Drafts the header words on the path of a partition that joins the live ones or leaves them, by its new byte. They end
/// below the first byte that stays, since then all above it stay too.
pub fn set_path<D: Pm>(
    draft: &mut Draft<D>,
    level: u32,
    number: u64,
    byte: u8,
) -> Result<(), PmFault>
    requires maps { MapsAlike 1 (words_under draft.old) (drafted draft.old) }
    requires partition { IsPartition level number }
    requires there { AreThere (words_under draft.old) (nth level number) }
    requires room { count_of draft.old + (MOST_WORDS - level) ≤ MOST_LONG_PAIRS }

    ensures headers { OnOk result ((old new : ℕ → ℕ → Bool) → Headers old (shown_word (drafted draft.old)) → Changes old new level number byte
        → Headers new (shown_word (drafted draft.new))) }
    ensures bytes { OnOk result (KeepsOtherBytes (nth level number) (drafted draft.old) (drafted draft.new)) }
    ensures cells { OnOk result (KeepsCells (drafted draft.old) (drafted draft.new)) }
    ensures maps { OnOk result (MapsAlike 1 (words_under draft.new) (drafted draft.new)) }

    ensures pairs { AddsPairs (NamesHeader (words_under draft.old) (nth level number)) (pairs_of draft.old) (pairs_of draft.new) }
    ensures some { OnOk result (count_of draft.old < count_of draft.new) }
    ensures count { OnOk result (count_of draft.new ≤ count_of draft.old + (MOST_WORDS - level)) }
    ensures drafts { Drafts draft.old draft.new }
    ensures cause { HasCause (faults_under draft.old) (faults_under draft.new) result }
{
    let mut above = set_byte(draft, level, number, byte)?;
    let mut child = number / 8;
    for at in level + 1..10 {
        if byte_of(draft, at, child) == above {
            return Ok(());
        }
        above = set_byte(draft, at, child, above)?;
        child /= 8;
    }
    Ok(())
}
