// A device over plain memory, which never fails and tells no images.
ghost use Rattle.std.proofs.Common.{arith};
ghost use Rattle.std.specs.Prelude.{◌≡◌, ◌≤◌, ◌*◌, ◌<◌, ◌^◌, ◌/◌, ℕ, Ok, None, length, IfOk, slice_index, slice_set, replicate};
ghost use Rattle.ct_base.specs.declared.layout.TheConstants.{MOST_PAGES, PAGE_WORDS};

use crate::{Pm, PmFault};
use ct_base::{MOST_PAGES, NoMemory, PAGE_WORDS};
use std::alloc::Global;

/// Plain memory as a device: a load or a store is one access of memory, and no call fails. It tells no history.
#[derive(Drop)]
pub struct RamPm {
    words: Vec<u64>,
    pages: u64,
    ghost whole_pages: { length words.items ≡ PAGE_WORDS * pages },
    ghost words_fit: { (word : ℕ) → slice_index words.items word < 2 ^ 64 },
    ghost few: { pages ≤ MOST_PAGES },
}

impl RamPm {
    ghost use Rattle.ct_pm.specs.Ram.{words_of, pages_of};

    /// So many pages of words that are all 0, at most `MOST_PAGES`.
    ///
    /// # Errors
    ///
    /// `NoMemory` where memory ran out.
    pub fn new(alloc: Global, pages: u64) -> Result<RamPm, NoMemory>
        requires { pages ≤ MOST_PAGES }
        ensures words { IfOk result (λ device. words_of device ≡ replicate (PAGE_WORDS * pages) 0) }
        ensures pages { IfOk result (λ device. pages_of device ≡ pages) }
    {
        match vec![in alloc; 0; (PAGE_WORDS * pages) as usize] {
            Ok(words) => Ok(RamPm { words, pages }),
            Err(_) => Err(NoMemory),
        }
    }
}

impl Pm for RamPm {
    ghost use Rattle.ct_pm.specs.Ram.{words_of, pages_of};

    ghost words = { λ device. device.words.items };

    ghost page_count = { λ device. device.pages };

    ghost faults = { λ _. 0 };

    ghost told = { λ _. None };

    ghost replays = { λ _. tt };

    ghost whole_pages = { λ device. device.whole_pages };

    ghost words_fit = { λ device. device.words_fit };

    ghost words_count = { λ device. Prim.omega (arith, device.few) };

    fn pages(&self) -> u64
        ensures { result ≡ pages_of self.now }
    {
        self.pages
    }

    fn load(&self, word: u64) -> u64 {
        self.words[word as usize]
    }

    fn store(&mut self, word: u64, value: u64) -> Result<(), PmFault>
        requires { word < length (words_of self.old) }
        ensures words { words_of self.new ≡ slice_set (words_of self.old) word value }
        ensures pages { pages_of self.new ≡ pages_of self.old }
        ensures ok { result ≡ Ok tt }
    {
        self.words[word as usize] = value;
        Ok(())
    }

    fn flush(&mut self, _line: u64) -> Result<(), PmFault>
        ensures same { self.new ≡ self.old }
        ensures ok { result ≡ Ok tt }
    {
        Ok(())
    }

    fn fence(&mut self) -> Result<(), PmFault>
        ensures same { self.new ≡ self.old }
        ensures ok { result ≡ Ok tt }
    {
        Ok(())
    }
}
