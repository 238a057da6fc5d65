ghost use Rattle.std.specs.Prelude.{◌≡◌, ◌≢◌, ℕ, ◌+◌, ◌-◌, ◌*◌, ◌/◌, ◌%◌, ◌^◌, ◌<◌, ◌≤◌, IfSome, IfNone, true, false};
ghost use Rattle.ct_base.specs.Walk.{AreTables};
ghost use Rattle.ct_words.specs.Shown.{shown_word};
ghost use Rattle.ct_base.specs.Ranges.{byte_shown, fits};

use crate::address::header_address;
use ct_base::{PARTITION_SLOT, TABLE_ENTRIES, TOP_LEVEL};
use ct_level::TOP;
use ct_pm::Pm;
use ct_words::load_word;

/// The first child of a range, from a place on, whose byte tells of a free range of at least the level that is sought.
/// The children are of `level`, and one word is read.
pub fn first_child<D: Pm>(dev: &D, level: u32, number: u64, from: u64, sought: u32) -> Option<u64>
    requires tables { AreTables (D.words dev.now) }
    requires high { level ≤ TOP_LEVEL }
    requires number { number < 64 * 8 ^ (TOP_LEVEL - level) }
    requires sought { sought ≤ level }
    requires from { from ≤ 8 }
    ensures range { IfSome result (λ c. (8 * number + from ≤ c) × (c < 8 * number + 8)) }
    ensures some { IfSome result (λ c. fits sought (byte_shown (shown_word (D.words dev.now)) level c) ≡ true) }
    ensures first { IfSome result (λ c. (b : ℕ) → 8 * number + from ≤ b → b < c
        → fits sought (byte_shown (shown_word (D.words dev.now)) level b) ≡ false) }
    ensures none { IfNone result ((b : ℕ) → 8 * number + from ≤ b → b < 8 * number + 8
        → fits sought (byte_shown (shown_word (D.words dev.now)) level b) ≡ false) }
{
    let bytes = load_word(dev, header_address(level + 1, number)).to_le_bytes();
    for i in from..8 {
        let byte = bytes[i as usize];
        if byte == 0 || byte as u32 > 32 + sought {
            return Some(8 * number + i);
        }
    }
    None
}

/// The first root slot of partitions whose byte tells of a free range of at least the level that is sought.
pub fn first_slot<D: Pm>(dev: &D, sought: u32) -> Option<u64>
    requires tables { AreTables (D.words dev.now) }
    requires sought { sought ≤ TOP_LEVEL }
    ensures range { IfSome result (λ c. (PARTITION_SLOT ≤ c) × (c < TABLE_ENTRIES)) }
    ensures some { IfSome result (λ c. fits sought (byte_shown (shown_word (D.words dev.now)) TOP_LEVEL c) ≡ true) }
    ensures first { IfSome result (λ c. (b : ℕ) → PARTITION_SLOT ≤ b → b < c
        → fits sought (byte_shown (shown_word (D.words dev.now)) TOP_LEVEL b) ≡ false) }
    ensures none { IfNone result ((b : ℕ) → PARTITION_SLOT ≤ b → b < TABLE_ENTRIES
        → fits sought (byte_shown (shown_word (D.words dev.now)) TOP_LEVEL b) ≡ false) }
{
    if let Some(slot) = first_child(dev, TOP, 1, 2, sought) {
        return Some(slot);
    }
    for eight in 2..64 {
        if let Some(slot) = first_child(dev, TOP, eight, 0, sought) {
            return Some(slot);
        }
    }
    None
}
