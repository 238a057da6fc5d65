//! A device that lets so many calls through, and then fails.
//!
//! It has no model of its own: it is the device inside, and the number of calls that still pass.
#![tactic(auto)]

ghost use Rattle.std.specs.Prelude.{◌≡◌, ◌⊎◌, ◌+◌, ◌*◌, ◌<◌, OnOk, OnErr, IsErr, length, slice_set};
ghost use Rattle.ct_base.specs.Causes.{HasCause, Rose};
ghost use Rattle.ct_pm.specs.declared.step.Step.TheVariants.{Store, Flush, Fence};
ghost use Rattle.ct_pm.specs.Device.{AddsStep};
ghost use Rattle.pm_fuse.specs.Fuse.{inner, passes_of, blown_of, TakesPass};

use ct_pm::{Pm, PmFault};

/// A device that fails each store, flush and fence once it has let so many of them through. It tells what the device
/// inside tells, and counts the faults of both.
#[derive(Drop)]
pub struct FusePm<D> {
    dev: D,
    passes: u64,
    blown: u64,
}

impl<D: Pm> FusePm<D> {
    /// Lets `passes` calls of `store`, `flush` and `fence` through.
    pub fn new(dev: D, passes: u64) -> FusePm<D>
        ensures dev { inner result ≡ dev }
        ensures passes { passes_of result ≡ passes }
        ensures blown { blown_of result ≡ 0 }
    {
        FusePm {
            dev,
            passes,
            blown: 0,
        }
    }

    /// The device inside.
    pub fn into_inner(self) -> D
        ensures { result ≡ inner self }
    {
        let FusePm {
            dev,
            passes: _,
            blown: _,
        } = self;
        dev
    }

    // Takes a pass, where there is one.
    fn pass(&mut self) -> Result<(), PmFault>
        ensures dev { self.new.dev ≡ self.old.dev }
        ensures ok { OnOk result (self.new.blown ≡ self.old.blown) }
        ensures taken { OnOk result (self.new.passes + 1 ≡ self.old.passes) }
        ensures err { OnErr result (self.old.passes ≡ 0) }
        ensures spent { OnErr result (self.new.passes ≡ 0) }
        ensures cause { HasCause self.old.blown self.new.blown result }
    {
        if self.passes == 0 {
            self.blown = self.blown.saturating_add(1);
            return Err(PmFault);
        }
        self.passes -= 1;
        Ok(())
    }
}

impl<D: Pm> Pm for FusePm<D> {
    ghost words = { λ fuse. D.words fuse.dev };

    ghost page_count = { λ fuse. D.page_count fuse.dev };

    ghost faults = { λ fuse. D.faults fuse.dev + fuse.blown };

    ghost told = { λ fuse. D.told fuse.dev };

    ghost replays = { λ fuse. D.replays fuse.dev };

    ghost whole_pages = { λ fuse. D.whole_pages fuse.dev };

    ghost words_fit = { λ fuse. D.words_fit fuse.dev };

    ghost words_count = { λ fuse. D.words_count fuse.dev };

    fn pages(&self) -> u64 {
        self.dev.pages()
    }

    fn load(&self, word: u64) -> u64 {
        self.dev.load(word)
    }

    fn store(&mut self, word: u64, value: u64) -> Result<(), PmFault>
        requires { word < length (D.words (inner self.old)) }
        ensures words { OnOk result (D.words (inner self.new) ≡ slice_set (D.words (inner self.old)) word value) }
        ensures step { AddsStep result (Store word value) (D.told (inner self.old)) (D.told (inner self.new)) }
        ensures words_err { OnErr result (D.words (inner self.new) ≡ D.words (inner self.old)) }
        ensures cause { HasCause (D.faults (inner self.old) + blown_of self.old) (D.faults (inner self.new) + blown_of self.new) result }
        ensures pass { TakesPass self.old self.new }
        ensures spent { passes_of self.old ≡ 0 → IsErr result }
        ensures fails { OnErr result ((passes_of self.old ≡ 0) ⊎ Rose (D.faults (inner self.old)) (D.faults (inner self.new))) }
    {
        self.pass()?;
        self.dev.store(word, value)
    }

    fn flush(&mut self, line: u64) -> Result<(), PmFault>
        requires { 8 * line < length (D.words (inner self.old)) }
        ensures words { D.words (inner self.new) ≡ D.words (inner self.old) }
        ensures step { AddsStep result (Flush line) (D.told (inner self.old)) (D.told (inner self.new)) }
        ensures cause { HasCause (D.faults (inner self.old) + blown_of self.old) (D.faults (inner self.new) + blown_of self.new) result }
        ensures pass { TakesPass self.old self.new }
        ensures spent { passes_of self.old ≡ 0 → IsErr result }
        ensures fails { OnErr result ((passes_of self.old ≡ 0) ⊎ Rose (D.faults (inner self.old)) (D.faults (inner self.new))) }
    {
        self.pass()?;
        self.dev.flush(line)
    }

    fn fence(&mut self) -> Result<(), PmFault>
        ensures words { D.words (inner self.new) ≡ D.words (inner self.old) }
        ensures step { AddsStep result Fence (D.told (inner self.old)) (D.told (inner self.new)) }
        ensures cause { HasCause (D.faults (inner self.old) + blown_of self.old) (D.faults (inner self.new) + blown_of self.new) result }
        ensures pass { TakesPass self.old self.new }
        ensures spent { passes_of self.old ≡ 0 → IsErr result }
        ensures fails { OnErr result ((passes_of self.old ≡ 0) ⊎ Rose (D.faults (inner self.old)) (D.faults (inner self.new))) }
    {
        self.pass()?;
        self.dev.fence()
    }
}
