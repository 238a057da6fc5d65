ghost use Rattle.std.specs.Prelude.{◌≡◌, ◌+◌, ◌-◌, ◌*◌, ◌%◌, ◌^◌, ◌<◌, ◌≤◌};
ghost use Rattle.ct_base.specs.Published.{header_words};
ghost use Rattle.ct_base.specs.Ranges.{header_at};
ghost use Rattle.ct_level.specs.Any.{partition};

use arrayvec::ArrayVec;
use ct_base::{SLOT_SPAN, TOP_LEVEL};
use ct_level::AnyPart;

/// The bytes of the headers of level 1, which come first.
const LOWEST_BYTES: u64 = 1 << 36;

/// The bytes from the headers of one level above to those of the next.
const LEVEL_BYTES: u64 = 1 << 33;

/// The most header words on the path of a partition: one for each level from 1 on, and one for the byte of the root slot.
pub const MOST_WORDS: usize = 10;

/// The address of the header word of the range with a number, of a level from 1 on; the words of the bytes of the
/// top level are those of the level above it.
#[tactic(auto, using(ct_parts::proofs::Path::number_small, ct_parts::proofs::Path::header_at_one, ct_parts::proofs::Path::header_at_more))]
pub fn header_address(level: u32, number: u64) -> u64
    requires low { 1 ≤ level }
    requires high { level ≤ TOP_LEVEL + 1 }
    requires number { number < 64 * 8 ^ (TOP_LEVEL + 1 - level) }
    ensures value { result ≡ header_at level number }
    ensures aligned { result % 8 ≡ 0 }
    ensures first { SLOT_SPAN ≤ result }
    ensures last { result < 2 * SLOT_SPAN }
{
    let slot = SLOT_SPAN + 8 * number;
    if level == 1 {
        return slot;
    }
    slot + LOWEST_BYTES + (level as u64 - 2) * LEVEL_BYTES
}

/// The addresses of header words, at most one for each level from 1 on and one for the byte of the root slot.
pub type HeaderWords = ArrayVec<u64, MOST_WORDS>;

/// The addresses of the header words on the path of a partition: those of the ranges above it, the lowest first, and the
/// word in which the byte of its root slot stands.
pub fn words(part: AnyPart) -> HeaderWords
    ensures { result.items ≡ header_words (partition part) }
{
    let (level, number) = part.place();
    let mut words = ArrayVec::new();
    let mut child = number;
    for at in level..10 {
        child /= 8;
        words.push(header_address(at + 1, child));
    }
    words
}
