// The words of the image of an empty tree.
ghost use Rattle.std.specs.Prelude.{◌≡◌, ℕ, ◌+◌, ◌*◌, ◌<◌, length, slice_index};
ghost use Rattle.ct_format.specs.Formatting.{format_word};

use ct_base::PAGE_WORDS;

/// The words of a page, as the length of an array.
const WORDS: usize = PAGE_WORDS as usize;

// What a word gets: 0 where no line names it.
#[tactic(auto, unfolding(crate::specs::Formatting::format_word))]
fn word_of(word: u64, pages: u64, inodes: u64) -> u64
    ensures { result ≡ format_word pages inodes word }
{
    match word {
        // the superblock: the version, the page count and the inode count
        1 => 1,
        2 => pages,
        3 => inodes,
        // root slots 0 and 1
        16_896 => 139_265,
        16_897 => 155_649,
        // the tables from page 34 on, down to the inodes in page 37
        17_408 => 143_361,
        17_920 => 147_457,
        18_432 => 151_553,
        // the root directory, which has no partition
        18_952 => 2,
        18_955 => 15,
        // the tables from page 38 on, down to the headers in page 41
        19_584 => 159_745,
        19_968 => 163_841,
        20_480 => 167_937,
        // root slots 0 to 9 hold no partition
        20_992 => 0x3030_3030_3030_3030,
        20_993 => 0x3030,
        _ => 0,
    }
}

/// The words of a page of the image, but for the magic.
pub fn page_words(page: u64, pages: u64, inodes: u64) -> [u64; WORDS]
    requires { page < 64 }
    ensures length { length result ≡ PAGE_WORDS }
    ensures words { (k : ℕ) → k < PAGE_WORDS → slice_index result k ≡ format_word pages inodes (page * PAGE_WORDS + k) }
{
    let mut words = [0; WORDS];
    for k in 0..WORDS {
        words[k] = word_of(page * PAGE_WORDS + k as u64, pages, inodes);
    }
    words
}
