//! A device that counts its calls, for tests that ask how much a call does.
//!
//! The one model is the device below: what is counted changes nothing of it.
#![tactic(auto)]

ghost use Rattle.std.specs.Prelude.{◌≡◌, ◌<◌, OnOk, OnErr, length, slice_set};
ghost use Rattle.ct_base.specs.Causes.{HasCause};
ghost use Rattle.ct_pm.specs.declared.step.Step.TheVariants.{Store, Flush, Fence};
ghost use Rattle.ct_pm.specs.Device.{AddsStep};

use ct_pm::{Pm, PmFault};
use std::cell::Cell;

/// A device that counts its calls.
#[derive(Drop)]
pub struct CountingPm<D> {
    pub dev: D,
    loads: Cell<u64>,
    pub stores: u64,
    pub flushes: u64,
    pub fences: u64,
}

impl<D: Pm> CountingPm<D> {
    pub fn new(dev: D) -> CountingPm<D>
        ensures { result.dev ≡ dev }
    {
        CountingPm {
            dev,
            loads: Cell::new(0),
            stores: 0,
            flushes: 0,
            fences: 0,
        }
    }

    /// The number of loads so far.
    pub fn loads(&self) -> u64 {
        self.loads.get()
    }
}

impl<D: Pm> Pm for CountingPm<D> {
    ghost words = { λ device. D.words device.dev };

    ghost page_count = { λ device. D.page_count device.dev };

    ghost faults = { λ device. D.faults device.dev };

    ghost told = { λ device. D.told device.dev };

    ghost replays = { λ device. D.replays device.dev };

    ghost whole_pages = { λ device. D.whole_pages device.dev };

    ghost words_fit = { λ device. D.words_fit device.dev };

    ghost words_count = { λ device. D.words_count device.dev };

    fn pages(&self) -> u64 {
        self.dev.pages()
    }

    fn load(&self, word: u64) -> u64 {
        self.loads.set(self.loads.get().saturating_add(1));
        self.dev.load(word)
    }

    fn store(&mut self, word: u64, value: u64) -> Result<(), PmFault> {
        self.stores = self.stores.saturating_add(1);
        self.dev.store(word, value)
    }

    fn flush(&mut self, line: u64) -> Result<(), PmFault> {
        self.flushes = self.flushes.saturating_add(1);
        self.dev.flush(line)
    }

    fn fence(&mut self) -> Result<(), PmFault> {
        self.fences = self.fences.saturating_add(1);
        self.dev.fence()
    }
}
