// One byte at an address, whatever the tables hold.
ghost use Rattle.std.specs.Prelude.{◌≡◌, ◌^◌, ◌<◌, IfSome};
ghost use Rattle.ct_base.specs.Settled.{HasPages};
ghost use Rattle.ct_base.specs.Walk.{byte, named_page, next, page_count, walk};
ghost use Rattle.ct_walk.specs.Pages.{some_page};
ghost use Rattle.ct_look.specs.Looks.{IsOnDevice};

use ct_base::{PAGE_BYTES, PAGE_WORDS, ROOT_PAGE, SLOT_SPAN, TABLE_ENTRIES, Vaddr};
use ct_pm::Pm;

/// The word of the superblock that holds the page count.
const PAGE_COUNT: u64 = 2;

/// The addresses that an entry of a table of level 3 leads to, in bytes.
pub(crate) const THIRD_SPAN: u64 = 1_073_741_824;

/// The addresses that an entry of a table of level 2 leads to, in bytes.
pub(crate) const SECOND_SPAN: u64 = 2_097_152;

// The page that an entry names, where there are so many pages; `None` where it names none.
fn named_page(pages: u64, entry: u64) -> Option<u64>
    ensures page { result ≡ some_page (named_page pages entry) }
    ensures small { IfSome result (λ page. page < 2 ^ 52) }
{
    let page = entry / PAGE_BYTES;
    if entry % PAGE_BYTES == 1 && page > ROOT_PAGE && page < pages {
        Some(page)
    } else {
        None
    }
}

// The page that entry `i` of a table names, if its form is right.
pub(crate) fn step<D: Pm>(dev: &D, table: u64, i: u64) -> Option<u64>
    requires pages { HasPages (D.words dev.now) }
    requires table { IsOnDevice (D.words dev.now) table }
    requires index { i < TABLE_ENTRIES }
    ensures page { result ≡ some_page (next (D.words dev.now) table i) }
    ensures there { IfSome result (IsOnDevice (D.words dev.now)) }
{
    named_page(dev.load(PAGE_COUNT), dev.load(table * PAGE_WORDS + i))
}

// The page at an address, by four index steps.
pub(crate) fn page_of<D: Pm>(dev: &D, v: Vaddr) -> Option<u64>
    requires { HasPages (D.words dev.now) }
    ensures page { result ≡ some_page (walk (D.words dev.now) v) }
    ensures there { IfSome result (IsOnDevice (D.words dev.now)) }
{
    let address = v.get();
    let third = step(dev, ROOT_PAGE, address / SLOT_SPAN % TABLE_ENTRIES)?;
    let second = step(dev, third, address / THIRD_SPAN % TABLE_ENTRIES)?;
    let first = step(dev, second, address / SECOND_SPAN % TABLE_ENTRIES)?;
    step(dev, first, address / PAGE_BYTES % TABLE_ENTRIES)
}

/// The byte at an address, 0 where there is no page.
pub fn byte_at<D: Pm>(dev: &D, v: Vaddr) -> u8
    requires { HasPages (D.words dev.now) }
    ensures { result ≡ byte (D.words dev.now) v }
{
    match page_of(dev, v) {
        Some(page) => {
            let offset = v.get() % PAGE_BYTES;
            let word = dev.load(page * PAGE_WORDS + offset / 8);
            (word / 256u64.pow((offset % 8) as u32) % 256) as u8
        }
        None => 0,
    }
}
