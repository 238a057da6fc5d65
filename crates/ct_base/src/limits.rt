// How many pairs of the redo record a call takes at most, whose record has room for `MOST_LONG_PAIRS`.

/// The most pairs of a call that exchanges no ranges. A range of pages in one root slot is at most 2,555 pieces: 511 of one page
/// and 511 of 512 pages at either end, and 511 of 512 times 512 pages between. Each piece changes two words, and one more is
/// the size.
pub const MOST_CALL_PAIRS: u64 = 5111;

/// The most pairs of the growth of an object: 22 for the headers, the base and the level, and two for each of at most 64 pieces,
/// since a partition of a level is 1, 8 or 64 pieces of one length.
pub const MOST_GROWTH_PAIRS: u64 = 150;

/// The most pairs of an exchange of ranges: two for each of the 4,000 pages that one call may exchange.
pub const MOST_EXCHANGE_PAIRS: u64 = 8000;
