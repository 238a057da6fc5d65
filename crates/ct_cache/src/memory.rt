// Who remembers pages and entries.
ghost use Rattle.std.specs.Prelude.{◌≡◌, ◌≢◌, ℕ, List, IfSome};
ghost use Rattle.ct_base.specs.Walk.{walk};

use ct_base::{Page, Vaddr};
use ct_dir::{Finder, OnDevice};

/// Who may remember pages of a device, beside its entries.
pub trait Memory: Finder {
    /// The page that is remembered of an address, `None` where none is.
    fn page_of(&self, v: Vaddr) -> Option<Page>
        ensures { IfSome result (λ page. (words : List ℕ) → Self.agrees self.now words → (page ≢ 0) × (walk words v ≡ page)) };
}

impl Memory for OnDevice {
    fn page_of(&self, _v: Vaddr) -> Option<Page> {
        None
    }
}
