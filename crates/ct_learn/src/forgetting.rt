// What is forgotten.
ghost use Rattle.std.specs.Prelude.{ℕ, List};
ghost use Rattle.ct_learn.specs.Learning.{IsSo, NamesAreSo};

use crate::learnt::Learnt;
use ct_cache::Caches;

impl Learnt {
    /// Nothing is learnt without caches.
    pub fn nothing() -> Learnt
        ensures { (words : List ℕ) → IsSo result words }
    {
        Learnt { caches: None }
    }

    /// Nothing is learnt yet, in caches that are to be filled.
    pub fn within(caches: Caches) -> Learnt
        ensures { (words : List ℕ) → IsSo result words }
    {
        let mut learnt = Learnt {
            caches: Some(caches),
        };
        learnt.forget();
        learnt
    }

    /// Forgets all.
    pub fn forget(&mut self)
        ensures { (words : List ℕ) → IsSo self.new words }
    {
        match &mut self.caches {
            Some(caches) => {
                caches.forget_every_page();
                caches.forget_every_name();
            }
            None => {}
        }
    }

    /// Forgets the pages, and keeps the names.
    pub fn forget_pages(&mut self)
        ensures { (words : List ℕ) → NamesAreSo self.old words → IsSo self.new words }
    {
        match &mut self.caches {
            Some(caches) => caches.forget_every_page(),
            None => {}
        }
    }
}
