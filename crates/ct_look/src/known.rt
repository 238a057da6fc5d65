// Pages that may be known.
ghost use Rattle.std.specs.Prelude.{◌≡◌, IfSome};
ghost use Rattle.ct_base.specs.Settled.{HasPages};
ghost use Rattle.ct_base.specs.Walk.{byte, walk};
ghost use Rattle.ct_walk.specs.Pages.{some_page};
ghost use Rattle.ct_look.specs.Looks.{IsOnDevice};

use crate::content::byte_in;
use crate::peek::page_of;
use ct_base::{PAGE_BYTES, Vaddr};
use ct_cache::Memory;
use ct_pm::Pm;

/// The page at an address: where it is known, and else by four index steps.
pub(crate) fn page_by<D: Pm, M: Memory>(dev: &D, memory: &M, v: Vaddr) -> Option<u64>
    requires known { M.agrees memory.now (D.words dev.now) }
    requires pages { HasPages (D.words dev.now) }
    ensures page { result ≡ some_page (walk (D.words dev.now) v) }
    ensures there { IfSome result (IsOnDevice (D.words dev.now)) }
{
    match memory.page_of(v) {
        Some(page) => Some(page.number()),
        None => page_of(dev, v),
    }
}

/// The byte at an address, 0 where there is no page, on a device of which something is known.
pub fn byte_by<D: Pm, M: Memory>(dev: &D, memory: &M, v: Vaddr) -> u8
    requires known { M.agrees memory.now (D.words dev.now) }
    requires pages { HasPages (D.words dev.now) }
    ensures { result ≡ byte (D.words dev.now) v }
{
    match page_by(dev, memory, v) {
        Some(page) => byte_in(dev, page, v.get() % PAGE_BYTES),
        None => 0,
    }
}
