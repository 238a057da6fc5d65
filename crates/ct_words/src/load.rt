// Words by address, read on a device.
ghost use Rattle.std.specs.Prelude.{◌≡◌, ◌≢◌, ◌+◌, ◌*◌, ◌/◌, ◌<◌, ◌≤◌, ◌%◌};
ghost use Rattle.ct_base.specs.Walk.{AreTables, page_at, page_count};
ghost use Rattle.ct_base.specs.Words.{place_at};
ghost use Rattle.ct_words.specs.Shown.{shown_word};

use ct_base::{ADDRESS_END, FIRST_PAGE, PAGE_BYTES, PAGE_WORDS, Vaddr};
use ct_pm::Pm;
use ct_walk::{load_at, walk};

/// The word at an address.
pub fn load_word<D: Pm>(dev: &D, address: u64) -> u64
    requires tables { AreTables (D.words dev.now) }
    requires aligned { address % 8 ≡ 0 }
    requires high { address < ADDRESS_END }
    ensures { result ≡ shown_word (D.words dev.now) address }
{
    match Vaddr::new(address) {
        Some(v) => load_at(dev, v),
        None => unreachable!(),
    }
}

/// The device word of an address whose page is there.
pub fn place_of<D: Pm>(dev: &D, address: u64) -> u64
    requires tables { AreTables (D.words dev.now) }
    requires high { address < ADDRESS_END }
    requires there { page_at (D.words dev.now) 4 (address / PAGE_BYTES) ≢ 0 }
    ensures value { result ≡ place_at (D.words dev.now) address }
    ensures low { FIRST_PAGE * PAGE_WORDS ≤ result }
    ensures on_device { result < PAGE_WORDS * page_count (D.words dev.now) }
{
    match Vaddr::new(address) {
        Some(v) => match walk(dev, v) {
            Some(page) => page.number() * PAGE_WORDS + address % PAGE_BYTES / 8,
            None => unreachable!(),
        },
        None => unreachable!(),
    }
}
