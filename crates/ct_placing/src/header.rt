// The header words of root slot 1 and their bytes, by ranges and by addresses.
ghost use Rattle.std.specs.Prelude.{◌≡◌, ◌≢◌, ℕ, ◌-◌, ◌*◌, ◌%◌, ◌^◌, ◌<◌, ◌≤◌, ◌+◌, IfSome, IfNone};
ghost use Rattle.ct_base.specs.Ranges.{header_at};
ghost use Rattle.ct_base.specs.Walk.{AreTables};
ghost use Rattle.ct_placing.specs.Heading.{IsRangeAt, byte_of as byte_in, word_of};

use ct_base::{SLOT_SPAN, TABLE_ENTRIES, TOP_LEVEL};
use ct_header::header_address;
use ct_pm::Pm;
use ct_words::load_word;

/// The highest level of a range.
pub const TOP: u32 = TOP_LEVEL as u32;

/// The bytes of the level-0 headers.
const LOWEST: u64 = 68_719_476_736;

/// The distance between the headers of one level and those of the next, from level 1 on.
const STRIDE: u64 = 8_589_934_592;

/// The header word of the range with a number, of a level from 1 on.
pub fn header<D: Pm>(dev: &D, level: u32, number: u64) -> u64
    requires tables { AreTables (D.words dev.now) }
    requires low { 1 ≤ level }
    requires high { level ≤ TOP_LEVEL + 1 }
    requires number { number < 64 * 8 ^ (TOP_LEVEL + 1 - level) }
    ensures { result ≡ word_of (D.words dev.now) (header_at level number) }
{
    load_word(dev, header_address(level, number))
}

/// The byte of the range with a number, of a level.
pub fn byte_of<D: Pm>(dev: &D, level: u32, number: u64) -> u8
    requires tables { AreTables (D.words dev.now) }
    requires level { level ≤ TOP_LEVEL }
    requires number { number < TABLE_ENTRIES * 8 ^ (TOP_LEVEL - level) }
    ensures { result ≡ byte_in (D.words dev.now) level number }
{
    header(dev, level + 1, number / 8).to_le_bytes()[(number % 8) as usize]
}

/// The level of the ranges whose bytes stand in the header word at an address, and the number of the range that they divide.
pub fn range_at(address: u64) -> Option<(u32, u64)>
    requires aligned { address % 8 ≡ 0 }
    requires first { SLOT_SPAN ≤ address }
    requires last { address < 2 * SLOT_SPAN }
    ensures some { IfSome result (λ r. IsRangeAt address r.0 r.1) }
    ensures none { IfNone result ((n j : ℕ) → IsRangeAt address n j → ⊥) }
{
    let offset = address - SLOT_SPAN;
    if offset < LOWEST {
        return Some((0, offset / 8));
    }
    let above = offset - LOWEST;
    let level = 1 + above / STRIDE;
    let number = above % STRIDE / 8;
    if level <= TOP_LEVEL && number < 64 * 8u64.pow(TOP - level as u32) {
        Some((level as u32, number))
    } else {
        None
    }
}
