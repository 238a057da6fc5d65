//! Laws of the subdivision headers: what the bytes say of the live partitions, and which partition is the first free one.
//!
//! The one model: a set of live partitions is a test on levels and numbers, and a list of partitions is such a test.
#![tactic(auto)]

ghost use Rattle.ct_parts.specs.Laws.{BytesAreTheFormats, FormatsBytesAreThese, HeadersDetermineTheSet, WordsHoldTheBytes};
ghost use Rattle.ct_parts.specs.Laws.{FreeIsFree, FirstFreeIsTheHead, NoneFreeIsEmpty, SoundHeadersStand};

/// The header bytes of a list of partitions are those of the format, and the format leaves no choice.
pub fn header_bytes()
    ensures published { BytesAreTheFormats }
    ensures only { FormatsBytesAreThese }
{}

/// The headers determine the live partitions, which on a sound image are those of the live inodes.
pub fn live_set()
    ensures determined { HeadersDetermineTheSet }
    ensures sound { SoundHeadersStand }
{}

/// Headers may be read byte by byte or word by word.
pub fn header_words()
    ensures { WordsHoldTheBytes }
{}

/// The list of the free partitions of a level begins with the lowest one.
pub fn free_partitions()
    ensures test { FreeIsFree }
    ensures first { FirstFreeIsTheHead }
    ensures none { NoneFreeIsEmpty }
{}
