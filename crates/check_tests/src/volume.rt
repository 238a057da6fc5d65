use ct_base::PAGE_WORDS;
use ct_pm::{Pm, RamPm};
use std::alloc::Global;

// Sets a word, where there is one.
fn set(dev: &mut RamPm, word: u64, value: u64) {
    if word < PAGE_WORDS * dev.pages() {
        let _ = dev.store(word, value);
    }
}

/// The words that are not 0 in the image of a format with 256 pages and 16 inodes.
const FORMATTED: [(u64, u64); 16] = [
    (0, 0x3130_5346_5443_5452),
    (1, 1),
    (2, 256),
    (3, 16),
    (16896, 139265),
    (16897, 155649),
    (17408, 143361),
    (17920, 147457),
    (18432, 151553),
    (18952, 2),
    (18955, 15),
    (19584, 159745),
    (19968, 163841),
    (20480, 167937),
    (20992, 0x3030_3030_3030_3030),
    (20993, 0x3030),
];

// Sets each of the words.
fn set_all(dev: &mut RamPm, words: &[(u64, u64)]) {
    for (word, value) in words {
        set(dev, *word, *value);
    }
}

/// That image with these words set anew, one list after the other; `None` where there is no memory for it.
pub fn image(alloc: Global, first: &[(u64, u64)], then: &[(u64, u64)]) -> Option<RamPm> {
    let mut dev = RamPm::new(alloc, 256).ok()?;
    set_all(&mut dev, &FORMATTED);
    set_all(&mut dev, first);
    set_all(&mut dev, then);
    Some(dev)
}
